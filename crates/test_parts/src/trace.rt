//! Lines of the log, written out: that a line is written at all, no contract can say, since a body
//! may leave out each for which memory runs out.

use byte_io::Writing;
use hook_changes::{Answer, Ask, Atts, Call, CallbackId, Change, Listed, Reply, Text, Then};
use page_trace::{PageEnd, PageName, PageTrace, Told, Watch};
use shortcode_atts::parse;
use std::alloc::{AllocError, Global};

/// The line of an invocation with each kind of change, and with a text of 201 bytes of which 199
/// are in whole characters.
const CHANGED: [&str; 10] = [
    r#"{"page":"/é?\"","open":3,"count":12,"item":8,"post":5,"depth":1,"hook":"h","priority":-5,"#,
    r#""plugin":"p","callback":7,"args":["a",{"cut":""#,
    TENS,
    r#"x","bytes":201}],"echo":"e","changes":["#,
    r#"{"add_filter":{"hook":"h","priority":-2147483648,"callback":7,"accepted":2}},"#,
    r#"{"remove_filter":{"hook":"h","priority":2147483647,"callback":7}},"#,
    r#"{"remove_all_filters":{"hook":"h","priority":-1}},{"remove_all_filters":{"hook":"h"}},"#,
    r#"{"add_shortcode":{"tag":"t","callback":7}},{"remove_shortcode":{"tag":"t"}},"#,
    r#"{"remove_all_shortcodes":{}}],"answer":"v"}"#,
    "\n",
];

/// 198 bytes.
const TENS: &str = "012345678901234567890123456789012345678901234567890123456789012345\
678901234567890123456789012345678901234567890123456789012345678901\
234567890123456789012345678901234567890123456789012345678901234567";

/// How the line of a shortcode's handler begins, with each kind of answer.
const HANDLED: [&str; 2] = [
    r#"{"page":"/x","count":1,"depth":0,"tag":"t","plugin":"core","callback":0,"atts":{"named":"#,
    r#"[["a","1"],["b","2"]],"positional":["c"]},"content":"i","answers":["s","#,
];

/// The other answers, up to the ask.
const ANSWERED: &str = r#"-9223372036854775808,true,false,null],"ask":"#;

/// Each kind of ask.
const ASKED: [&str; 10] = [
    r#"{"apply_filters":{"hook":"h","value":"v","args":["a",""]}}"#,
    r#"{"do_action":{"hook":"h","args":[]}}"#,
    r#"{"do_shortcode":{"text":"[t]"}}"#,
    r#"{"did_action":{"hook":"h"}}"#,
    r#"{"current_filter":{}}"#,
    r#"{"doing_filter":{"hook":"h"}}"#,
    r#"{"has_filter":{"hook":"h","callback":9}}"#,
    r#"{"has_filter":{"hook":"h"}}"#,
    r#"{"shortcode_exists":{"tag":"t"}}"#,
    r#"{"get_option":{"name":"o"}}"#,
];

/// The lines of three pages that end, of which the second and the third are open.
const PRINTED: [&str; 3] = [
    "{\"page\":\"/p\",\"status\":200,\"bytes\":9,\"invocations\":2}\n",
    "{\"page\":\"/b\",\"open\":3,\"status\":200,\"bytes\":9,\"invocations\":0}\n",
    "{\"page\":\"/c\",\"open\":4,\"status\":200,\"bytes\":9,\"invocations\":0}\n",
];

/// The lines if the first is the second, which ends twice.
const REFUSED: [&str; 3] = [
    "{\"page\":\"/b\",\"open\":3,\"refused\":9,\"name\":\"TooManyCalls\",\"invocations\":2}\n",
    "{\"open\":3,\"refused\":9,\"name\":\"TooManyCalls\",\"invocations\":0}\n",
    "{\"page\":\"/c\",\"open\":4,\"refused\":9,\"name\":\"TooManyCalls\",\"invocations\":0}\n",
];

/// Returns whether the parts, one after another, are these bytes.
fn are_joined(parts: &[&str], bytes: &[u8]) -> bool {
    let mut rest = bytes;
    for part in parts {
        match rest.strip_prefix(part.as_bytes()) {
            Some(later) => rest = later,
            None => return false,
        }
    }
    rest.is_empty()
}

/// Returns a list of texts.
fn texts(alloc: Global, items: &[&str]) -> Result<Listed<Text>, AllocError> {
    let mut texts = Listed::empty(alloc);
    for item in items {
        texts.push(Text::copied(alloc, item)?)?;
    }
    Ok(texts)
}

/// Returns what the callback of a hook, or the handler of a shortcode, is called with.
fn call(alloc: Global, hook: &str, args: &[&str], tag: &str) -> Result<Call, AllocError> {
    Ok(Call {
        hook: Text::copied(alloc, hook)?,
        args: texts(alloc, args)?,
        tag: Text::copied(alloc, tag)?,
        atts: Atts::new(alloc),
        content: Text::empty(alloc),
        answers: Listed::empty(alloc),
    })
}

/// Returns each kind of change.
fn change(alloc: Global, at: usize) -> Result<Change, AllocError> {
    let hook = Text::copied(alloc, "h")?;
    let tag = Text::copied(alloc, "t")?;
    let callback = CallbackId::new(7);
    Ok(match at {
        0 => Change::Add {
            hook,
            priority: i32::MIN,
            callback,
            accepted: 2,
        },
        1 => Change::Remove {
            hook,
            priority: i32::MAX,
            callback,
        },
        2 => Change::RemoveAll {
            hook,
            priority: Some(-1),
        },
        3 => Change::RemoveAll {
            hook,
            priority: None,
        },
        4 => Change::AddTag { tag, callback },
        5 => Change::RemoveTag { tag },
        _ => Change::RemoveAllTags,
    })
}

/// Returns a reply with each kind of change.
fn changing(alloc: Global) -> Result<Reply, AllocError> {
    let mut changes = Listed::empty(alloc);
    for at in 0..7 {
        changes.push(change(alloc, at)?)?;
    }
    let reply = Reply::answer(alloc, Text::copied(alloc, "v")?);
    let echo = Text::copied(alloc, "e")?;
    Ok(reply.with_changes(changes).with_echo(echo))
}

/// Returns each kind of ask.
fn ask(alloc: Global, at: usize) -> Result<Ask, AllocError> {
    let hook = Text::copied(alloc, "h")?;
    Ok(match at {
        0 => Ask::Apply {
            hook,
            value: Text::copied(alloc, "v")?,
            args: texts(alloc, &["a", ""])?,
        },
        1 => Ask::Act {
            hook,
            args: Listed::empty(alloc),
        },
        2 => Ask::Shortcodes {
            text: Text::copied(alloc, "[t]")?,
        },
        3 => Ask::Did { hook },
        4 => Ask::Current,
        5 => Ask::Doing { hook },
        6 => Ask::Has {
            hook,
            callback: Some(CallbackId::new(9)),
        },
        7 => Ask::Has {
            hook,
            callback: None,
        },
        8 => Ask::TagExists {
            tag: Text::copied(alloc, "t")?,
        },
        _ => Ask::GetOption {
            name: Text::copied(alloc, "o")?,
        },
    })
}

/// Returns whether the line of an invocation is made of these parts.
fn is_told(alloc: Global, page: PageName<'_>, told: &Told<'_>, parts: &[&str]) -> bool {
    let mut bytes = Vec::new(alloc);
    let mut log = PageTrace::new(alloc, Writing::new(&mut bytes));
    log.opened(3, "/é?\"");
    log.invoked(page, told);
    drop(log);
    are_joined(parts, &bytes)
}

/// Returns an invocation of a hook's callback.
fn of_hook<'a>(plugin: &'a str, call: &'a Call, reply: &'a Reply) -> Told<'a> {
    Told {
        count: 12,
        item: Some(8),
        post: Some(5),
        depth: 1,
        priority: Some(-5),
        callback: CallbackId::new(7),
        plugin: Some(plugin),
        call,
        reply: Some(reply),
    }
}

/// Returns an invocation of a shortcode's handler.
fn of_shortcode<'a>(call: &'a Call, reply: &'a Reply) -> Told<'a> {
    Told {
        count: 1,
        item: None,
        post: None,
        depth: 0,
        priority: None,
        callback: CallbackId::new(0),
        plugin: None,
        call,
        reply: Some(reply),
    }
}

/// Returns whether each kind of change is told.
fn are_changes_told(alloc: Global) -> Result<bool, AllocError> {
    let mut long = Text::copied(alloc, TENS)?;
    long.push_str("xé")?;
    let call = call(alloc, "h", &["a", long.as_str()], "")?;
    let reply = changing(alloc)?;
    let told = of_hook("p", &call, &reply);
    Ok(is_told(alloc, PageName::Open(3), &told, &CHANGED))
}

/// Returns whether each kind of answer, and this ask, are told.
fn is_ask_told(alloc: Global, at: usize, wanted: &str) -> Result<bool, AllocError> {
    let mut call = call(alloc, "", &[], "t")?;
    call.atts = parse(alloc, " a=1 b=2 c")?;
    call.content = Text::copied(alloc, "i")?;
    call.answers = Listed::new(vec![in alloc;
        Answer::Text(Text::copied(alloc, "s")?),
        Answer::Number(i64::MIN),
        Answer::Flag(true),
        Answer::Flag(false),
        Answer::Nothing,
    ]?);
    let reply = Reply::ask(alloc, ask(alloc, at)?);
    let told = of_shortcode(&call, &reply);
    let parts = [HANDLED[0], HANDLED[1], ANSWERED, wanted, "}\n"];
    Ok(is_told(alloc, PageName::Path("/x"), &told, &parts))
}

#[test]
fn invocations_are_told(rt: HostRuntime) {
    let alloc = rt.alloc();
    assert!(rt; are_changes_told(alloc).unwrap_or(false));
    for at in 0..ASKED.len() {
        assert!(rt; is_ask_told(alloc, at, ASKED[at]).unwrap_or(false));
    }
}

/// Returns whether the line of a page's end is this, and whether its path is forgotten.
fn is_end_told(alloc: Global, page: PageName<'_>, end: PageEnd, parts: &[&str]) -> bool {
    let mut bytes = Vec::new(alloc);
    let mut log = PageTrace::new(alloc, Writing::new(&mut bytes));
    log.opened(3, "/a");
    log.opened(3, "/b");
    log.opened(4, "/c");
    log.ended(page, end, 2);
    log.ended(PageName::Open(3), end, 0);
    log.ended(PageName::Open(4), end, 0);
    drop(log);
    are_joined(parts, &bytes)
}

/// Ends a page of which 20 bytes are written before a write fails, and returns those if nothing
/// more is written.
fn front_told(alloc: Global, room: &mut [u8; 20]) -> bool {
    let end = PageEnd::Printed {
        status: 404,
        bytes: 9,
    };
    let mut log = PageTrace::new(alloc, Writing::new(&mut room[..]));
    let was_on = log.is_on();
    log.ended(PageName::Path("/"), end, 0);
    was_on && !log.is_on()
}

#[test]
fn ends_are_told(rt: HostRuntime) {
    let alloc = rt.alloc();
    let printed = PageEnd::Printed {
        status: 200,
        bytes: 9,
    };
    let refused = PageEnd::Refused {
        number: 9,
        name: "TooManyCalls",
    };
    assert!(rt; is_end_told(alloc, PageName::Path("/p"), printed, &PRINTED));
    assert!(rt; is_end_told(alloc, PageName::Open(3), refused, &REFUSED));
    let mut room = [0; 20];
    assert!(rt; front_told(alloc, &mut room));
    assert!(rt; are_joined(&[r#"{"page":"/","status""#], &room));
}
