//! What some templates of `snippets` print.
use crate::calls::{call_with, is_answered};
use hook_changes::{Answer, CallbackId, Listed, Text};
use snippets::snippet_reply;
use std::alloc::{AllocError, Global};

/// A template, the text of attributes, a content, and what is printed.
const PRINTED: [(&str, &str, &str, &str); 37] = [
    ("2026", "", "", "2026"),
    (
        "<a class=\"button\" href=\"{{href|#}}\">{{content|Read more}}</a>",
        "href=/bread?a=1&b=2",
        "",
        "<a class=\"button\" href=\"/bread?a=1&amp;b=2\">Read more</a>",
    ),
    (
        "<a href=\"{{href|#}}\">{{content}}</a>",
        "href=' java\tSCRIPT:alert(1)'",
        "<i>x</i>",
        "<a href=\"\"><i>x</i></a>",
    ),
    ("{{a}}", "a='\"><script>'", "", "&quot;&gt;&lt;script&gt;"),
    ("{{a|b}}", "a=''", "", ""),
    ("{{a|b|c}}", "", "", "b|c"),
    ("{{#a}}({{a}}){{/a}}.", "a=1", "", "(1)."),
    ("{{#a}}({{a}}){{/a}}.", "", "", "."),
    ("{{#a}}1{{#b}}2{{/b}}3{{/a}}4", "a=x", "", "134"),
    ("{{#a}}1{{#b}}2{{/b}}3{{/a}}4", "b=x", "", "4"),
    ("{{#a}}1{{/b}}2", "", "", ""),
    ("{{#content}}<p>{{content}}</p>{{/content}}", "", "", ""),
    (
        "{{ a }} {{}} {{{a}}} {{a",
        "a=1",
        "",
        "{{ a }} {{}} {{{a}}} {{a",
    ),
    (".a{color:red}.b{}}", "", "", ".a{color:red}.b{}}"),
    ("{{^a}}none{{/a}}{{#a}}{{a}}{{/a}}", "", "", "none"),
    ("{{^a}}none{{/a}}{{#a}}{{a}}{{/a}}", "a=1", "", "1"),
    ("{{^content}}empty{{/content}}", "", "", "empty"),
    ("{{^content}}empty{{/content}}", "", "x", ""),
    ("{{2}}", "2=b", "", "b"),
    (
        "<script>x={{a}}</script>{{a}}",
        "a=1",
        "",
        "<script>x=</script>1",
    ),
    (
        "<Script>\"</b>\"{{a}}</SCRIPT >{{a}}",
        "a=1",
        "",
        "<Script>\"</b>\"</SCRIPT >1",
    ),
    (
        "<script><!--<script></script>{{a}}</script>{{a}}",
        "a=1",
        "",
        "<script><!--<script></script></script>",
    ),
    (
        "<script>a<!-b</script><style><!--</style>{{a}}",
        "a=1",
        "",
        "<script>a<!-b</script><style><!--</style>1",
    ),
    (
        "<style>b{c:{{a}}}</style><strong>{{a}}",
        "a=1",
        "",
        "<style>b{c:}</style><strong>1",
    ),
    (
        "<!-- {{a}} ---->{{a}}<!-->{{a}}",
        "a=1",
        "",
        "<!--  ---->1<!-->1",
    ),
    (
        "<!DOCTYPE html>{{a}}<script>a-->b={{a}}</script>{{a}}",
        "a=1",
        "",
        "<!DOCTYPE html>1<script>a-->b=</script>1",
    ),
    (
        "<?xml {{a}}?>{{a}}<!{{a}}>{{a}}<!-{{a}}>{{a}}<!-{{b|-}}{{a}}-->{{a}}",
        "a=1",
        "",
        "<?xml ?>1<!>1<!->1<!---->1",
    ),
    (
        "</{{a}}>{{a}}</ {{a}}=\"{{a}}>{{a}}",
        "a=1",
        "",
        "</>1</ =\">1",
    ),
    (
        "<a href={{a}} title={{a|x}}>{{a}}</a>",
        "a=1",
        "",
        "<a href= title=>1</a>",
    ),
    (
        "<a href={{b}} title={{b|x}}>{{a}}</a>",
        "a=1",
        "",
        "<a href= title=x>1</a>",
    ),
    (
        "<a href = '{{a}}' {{a}} b=\"{{a}}\"{{a}}>{{a}}",
        "a=1",
        "",
        "<a href = '1'  b=\"1\">1",
    ),
    ("<a =\"{{a}}\">", "a=1", "", "<a =\"\">"),
    ("<h{{a}}>{{a}}</h{{a}}>{{a}}", "a=1", "", "<h>1</h>1"),
    ("<h{{b|2}} class=\"{{a}}\">", "a=1", "", "<h2 class=\"1\">"),
    ("1 < {{a}} <{{a}}", "a=1", "", "1 < 1 <"),
    (
        "<img src=\"/{{a}}.jpg\"/>{{a}}",
        "a=1",
        "",
        "<img src=\"/1.jpg\"/>1",
    ),
    (
        "<p title=\"{{content}}{{a}}\">{{a}}",
        "a=1",
        "\">",
        "<p title=\"\">1\">1",
    ),
];

/// Returns whether a template prints this, as the handler of a shortcode answers once it has its
/// template and its content.
fn is_printed(
    alloc: Global,
    template: &str,
    atts: &str,
    content: &str,
    wanted: &str,
) -> Result<bool, AllocError> {
    let mut answers = Listed::empty(alloc);
    answers.push(Answer::Text(Text::copied(alloc, template)?))?;
    answers.push(Answer::Text(Text::copied(alloc, content)?))?;
    let call = call_with(alloc, atts, answers)?;
    let reply = snippet_reply(alloc, CallbackId::new(501), &call)?;
    Ok(is_answered(&reply, wanted))
}

#[test]
fn templates_are_printed(rt: HostRuntime) {
    let alloc = rt.alloc();
    for (template, atts, content, wanted) in &PRINTED {
        assert!(rt; is_printed(alloc, template, atts, content, wanted).unwrap_or(false));
    }
}
