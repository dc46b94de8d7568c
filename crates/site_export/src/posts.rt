//! The lines of posts.
ghost use Rattle.std.specs.Prelude.{◌≡◌, ◌≤◌, ◌<◌, ◌+◌, ◌++◌, ◌∷◌, [], ℕ, true, Some, None};
ghost use Rattle.std.specs.Prelude.{string_bytes, map, take, length, IfOk, OnOk};
ghost use Rattle.json.specs.Print.{print};
ghost use Rattle.site_export.specs.Lines.{
  exported_post,
  gone,
  bare,
  room_of,
  fits,
  import_head,
  import_tail,
  post_tokens,
  import_line,
  edit_line,
  edit_lines,
  delete_line,
  apart,
  AppendsPosts,
};

use crate::line::{begin_command, end_command, ended, put, put_number, put_text};
use json::{Token, Writer};
use post_tables::{Post, PostKind, PostStatus};
use site_records::{kind_text, status_text};
use std::alloc::{AllocError, Global};

/// The maximum room of posts that one line imports. For each byte of it they have at most six bytes
/// of JSON, so that the line is within the limit of 1,048,576 bytes, and they are fewer than the
/// 10,000 that an import may have.
const MAX_ROOM: usize = 170_000;

/// The room of a post beside its title and its content.
const OWN_ROOM: usize = 40;

/// The date of a post that is imported only to be deleted.
const ANY_DATE: &str = "2000-01-01 00:00:00";

/// A post, as a line has it.
#[derive(Clone, Copy)]
struct ShownPost<'a> {
    id: u32,
    kind: PostKind,
    status: PostStatus,
    title: &'a str,
    content: &'a str,
    date: &'a str,
}

/// Shows a post whole.
fn whole(post: &Post) -> ShownPost<'_>
    ensures { exported_post result ≡ post.now }
{
    ShownPost {
        id: post.id,
        kind: post.kind,
        status: post.status,
        title: post.title.as_str(),
        content: post.content.as_str(),
        date: post.date.as_str(),
    }
}

/// Shows a post without its title and content.
fn bare(post: &Post) -> ShownPost<'_>
    ensures { exported_post result ≡ bare post.now }
{
    ShownPost {
        title: "",
        content: "",
        ..whole(post)
    }
}

/// Appends a post to the line of an import.
fn put_post(line: &mut Writer, post: &ShownPost<'_>) -> Result<(), AllocError>
    ensures before { line.new.before ≡ line.old.before }
    ensures tokens { OnOk result (line.new.tokens ≡ line.old.tokens
        ++ post_tokens (exported_post post.now)) }
{
    put(line, &[Token::BeginObject])?;
    put_number(line, "id", post.id)?;
    put(
        line,
        &[
            Token::Key("kind"),
            Token::String(kind_text(post.kind)),
            Token::Key("status"),
            Token::String(status_text(post.status)),
            Token::Key("title"),
            Token::String(post.title),
            Token::Key("content"),
            Token::String(post.content),
            Token::Key("date"),
            Token::String(post.date),
            Token::EndObject,
        ],
    )
}

/// Begins the line of an import, up to its posts.
fn begin_import(alloc: Global) -> Result<Writer, AllocError>
    ensures before { IfOk result (λ line. line.before ≡ []) }
    ensures tokens { IfOk result (λ line. line.tokens ≡ import_head) }
{
    let mut line = begin_command(alloc, "import")?;
    put(&mut line, &[Token::Key("site"), Token::BeginObject])?;
    put_number(&mut line, "version", 1)?;
    put(&mut line, &[Token::Key("posts"), Token::BeginArray])?;
    Ok(line)
}

/// Ends the line of an import.
fn end_import(mut line: Writer) -> Result<String, AllocError>
    requires { line.before ≡ [] }
    ensures { IfOk result (λ text. string_bytes text ≡ print (line.tokens ++ import_tail)) }
{
    put(
        &mut line,
        &[Token::EndArray, Token::EndObject, Token::EndObject],
    )?;
    Ok(ended(line))
}

/// Returns the line that imports one post.
fn import_one(alloc: Global, post: &ShownPost<'_>) -> Result<String, AllocError>
    ensures { IfOk result (λ line. string_bytes line ≡ import_line (exported_post post.now ∷ [])) }
{
    let mut line = begin_import(alloc)?;
    put_post(&mut line, post)?;
    end_import(line)
}

/// Returns the line that imports the posts.
fn import_line(alloc: Global, posts: &[Post]) -> Result<String, AllocError>
    ensures { IfOk result (λ line. string_bytes line ≡ import_line posts.now) }
{
    let mut line = begin_import(alloc)?;
    for post in posts {
        put_post(&mut line, &whole(post))?;
    }
    end_import(line)
}

/// Returns the line that gives a post its title, or its content.
fn edit_line(alloc: Global, id: u32, name: &str, text: &str) -> Result<String, AllocError>
    ensures { IfOk result (λ line. string_bytes line ≡ edit_line id name.now text.now) }
{
    let mut line = begin_command(alloc, "edit")?;
    put_number(&mut line, "id", id)?;
    put_text(&mut line, name, text)?;
    end_command(line)
}

fn delete_line(alloc: Global, id: u32) -> Result<String, AllocError>
    ensures { IfOk result (λ line. string_bytes line ≡ delete_line id) }
{
    let mut line = begin_command(alloc, "delete")?;
    put_number(&mut line, "id", id)?;
    end_command(line)
}

/// Appends the line that gives a post its title, or its content, unless that is empty.
fn push_edit(
    alloc: Global,
    lines: &mut Vec<String>,
    id: u32,
    name: &str,
    text: &str,
) -> Result<(), AllocError>
    ensures { OnOk result (map string_bytes lines.new.items
        ≡ map string_bytes lines.old.items ++ edit_lines id name.now text.now) }
{
    if !text.is_empty() {
        lines.push(edit_line(alloc, id, name, text)?)?;
    }
    Ok(())
}

/// Appends the lines of a post that is too long for one: it is imported without its texts, and then
/// given each.
fn push_apart(alloc: Global, lines: &mut Vec<String>, post: &Post) -> Result<(), AllocError>
    ensures { OnOk result (map string_bytes lines.new.items
        ≡ map string_bytes lines.old.items ++ apart post.now) }
{
    lines.push(import_one(alloc, &bare(post))?)?;
    push_edit(alloc, lines, post.id, "title", post.title.as_str())?;
    push_edit(alloc, lines, post.id, "content", post.content.as_str())
}

/// Appends the lines after which the largest ID ever given is this one, and no post has it.
pub(crate) fn push_gone(alloc: Global, lines: &mut Vec<String>, id: u32) -> Result<(), AllocError>
    ensures { OnOk result (map string_bytes lines.new.items
        ≡ map string_bytes lines.old.items ++ import_line (gone id ∷ []) ∷ delete_line id ∷ []) }
{
    let post = ShownPost {
        id,
        kind: PostKind::Post,
        status: PostStatus::Draft,
        title: "",
        content: "",
        date: ANY_DATE,
    };
    lines.push(import_one(alloc, &post)?)?;
    lines.push(delete_line(alloc, id)?)?;
    Ok(())
}

/// Returns how much of the room is left once a post has its own, if it is enough.
fn left_after(room: usize, post: &Post) -> Option<usize>
    ensures some { (left : ℕ) → result ≡ Some left → left + room_of post.now ≡ room }
    ensures none { result ≡ None → room < room_of post.now }
{
    room.checked_sub(OWN_ROOM)?
        .checked_sub(post.title.as_str().len())?
        .checked_sub(post.content.as_str().len())
}

/// Returns how many posts from the first on one line imports.
fn fitting(posts: &[Post]) -> usize
    ensures within { result ≤ length posts.now }
    ensures fits { fits (take result posts.now) ≡ true }
    ensures none { result ≡ 0 → fits (take 1 posts.now) ≡ true → posts.now ≡ [] }
{
    let mut left = MAX_ROOM;
    let mut count = 0;
    for post in posts {
        match left_after(left, post) {
            Some(less) => left = less,
            None => return count,
        }
        count += 1;
    }
    count
}

/// Appends the lines of some first posts, and returns how many those are.
fn push_some(alloc: Global, lines: &mut Vec<String>, posts: &[Post]) -> Result<usize, AllocError>
    requires { 0 < length posts.now }
    ensures some { IfOk result (λ count. (0 < count) × (count ≤ length posts.now)) }
    ensures lines { IfOk result (λ count. AppendsPosts (take count posts.now)
        (map string_bytes lines.old.items) (map string_bytes lines.new.items)) }
{
    let count = fitting(posts);
    if count == 0 {
        push_apart(alloc, lines, &posts[0])?;
        return Ok(1);
    }
    lines.push(import_line(alloc, &posts[..count])?)?;
    Ok(count)
}

/// Appends the lines of posts.
pub(crate) fn push_posts(
    alloc: Global,
    lines: &mut Vec<String>,
    posts: &[Post],
) -> Result<(), AllocError>
    ensures { OnOk result (AppendsPosts posts.now (map string_bytes lines.old.items)
        (map string_bytes lines.new.items)) }
{
    let mut done = 0;
    while done < posts.len() {
        done += push_some(alloc, lines, &posts[done..])?;
    }
    Ok(())
}
