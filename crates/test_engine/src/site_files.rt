//! Site files that are given as bytes. The program reads them from a command's JSON tree, and its
//! replies show everything but where the first fault is.
use site_import::{ImportFault, Place, Section, read_site};
use site_records::SiteRecords;
use std::alloc::Global;

const NOTHING: &[u8] = br#"{"version":1}"#;

const ONE_OF_EACH: &[u8] =
    br#"{"active":["bold"],"templates":{"index":[ {"tag" : "the_title"}, "\u0078" ]},
"options":{"a":"1"},"posts":[{"id":2147483647,"kind":"page","status":"draft","title":"T",
"content":"[b]","date":"9999-12-31 23:59:59","more":0}],"front":0,"version":1}"#;

/// Returns whether a site file is read, and has `count` entries in each section.
fn has(alloc: Global, bytes: &[u8], count: usize) -> bool {
    match read_site(alloc, bytes) {
        Ok(file) => {
            let SiteRecords {
                posts,
                options,
                templates,
                active,
            } = &file.records;
            [
                posts.as_slice().len(),
                options.as_slice().len(),
                templates.as_slice().len(),
                active.as_slice().len(),
            ] == [count; 4]
        }
        Err(_) => false,
    }
}

#[test]
fn site_files_are_read(rt: HostRuntime) {
    assert!(rt; has(rt.alloc(), NOTHING, 0) && has(rt.alloc(), ONE_OF_EACH, 1));
}

const TEXT: Place = Place {
    section: Section::Text,
    entry: None,
};

const ROOT: Place = Place {
    section: Section::Root,
    entry: None,
};

const VERSION: Place = Place {
    section: Section::Version,
    entry: None,
};

const POSTS: Place = Place {
    section: Section::Posts,
    entry: None,
};

const SECOND_POST: Place = Place {
    section: Section::Posts,
    entry: Some(1),
};

const SECOND_OPTION: Place = Place {
    section: Section::Options,
    entry: Some(1),
};

const FRONT: Place = Place {
    section: Section::Front,
    entry: None,
};

const SECOND_TEMPLATE: Place = Place {
    section: Section::Templates,
    entry: Some(1),
};

const FIRST_ACTIVE: Place = Place {
    section: Section::Active,
    entry: Some(0),
};

/// Site files, each with its first fault. Options and templates are read by name.
static FAULTS: [(&[u8], ImportFault); 12] = [
    (b"", ImportFault::BadImport(TEXT)),
    (br#"{"version":1"#, ImportFault::BadImport(TEXT)),
    (
        b"{\"version\":1,\"more\":\"\xff\"}",
        ImportFault::BadImport(TEXT),
    ),
    (b"[]", ImportFault::BadImport(ROOT)),
    (
        br#"{"version":3,"posts":0}"#,
        ImportFault::BadImport(VERSION),
    ),
    (
        br#"{"active":0,"posts":0,"version":1}"#,
        ImportFault::BadImport(POSTS),
    ),
    (
        br#"{"version":1,"posts":[
{"id":2,"kind":"post","status":"publish","title":"T","content":"C","date":"2024-05-01 10:00:00"},
{"id":3,"kind":"post","status":"publish","title":"T","content":"C","date":"2024-02-30 10:00:00"}]}"#,
        ImportFault::BadDate(SECOND_POST),
    ),
    (
        br#"{"version":1,"options":{"b":null,"a":""}}"#,
        ImportFault::BadImport(SECOND_OPTION),
    ),
    (
        br#"{"version":2,"front":{"show":"x"}}"#,
        ImportFault::BadImport(FRONT),
    ),
    (
        br#"{"version":2,"front":{"show":"page"},"templates":0}"#,
        ImportFault::BadImport(FRONT),
    ),
    (
        br#"{"version":1,"templates":{"x":[],"index":[]}}"#,
        ImportFault::BadTemplate(SECOND_TEMPLATE),
    ),
    (
        br#"{"version":1,"active":[1,"bold"]}"#,
        ImportFault::BadImport(FIRST_ACTIVE),
    ),
];

/// Returns whether the first fault of a site file is that one.
fn is_refused(alloc: Global, bytes: &[u8], fault: ImportFault) -> bool {
    match read_site(alloc, bytes) {
        Ok(_) => false,
        Err(found) => found == fault,
    }
}

#[test]
fn first_faults_are_found(rt: HostRuntime) {
    for (bytes, fault) in &FAULTS {
        assert!(rt; is_refused(rt.alloc(), bytes, *fault));
    }
}

// A site file that is cut short is not a JSON text.
#[test]
fn front_parts_are_no_site_files(rt: HostRuntime) {
    for end in 0..ONE_OF_EACH.len() {
        assert!(rt;
            is_refused(
                rt.alloc(),
                &ONE_OF_EACH[..end],
                ImportFault::BadImport(TEXT)
            )
        );
    }
}
