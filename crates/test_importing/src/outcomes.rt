//! Batches, and all that their imports report.

use crate::octets::Octets;
use crate::volumes::{articles, batch, store};
use crate::watching::said;
use std::rt::HostRuntime;
use std::test::Fail;

/// The name of a row, texts, the octets of the batch after them, and what the import reports.
type Row<'a> = (&'a str, &'a [Octets<'a>], &'a [u8], &'a str);

const GOOD: Octets<'static> = Octets::Are(
    b"Path: p\nFrom: a@example.org\nNewsgroups: x.a,y.b\nSubject: s\n\
      Date: Sun, 09 Sep 2001 01:46:40 +0000\nMessage-ID: <1@far.example>\n\nhi\n",
);

const OTHER: Octets<'static> = Octets::Are(
    b"Path: p\nFrom: a@example.org\nNewsgroups: x.a\nSubject: s\n\
      Date: Sun, 09 Sep 2001 01:46:40 +0000\nMessage-ID: <7@far.example>\n\nhi\n",
);

/// The batches, one after another into one volume.
const ROWS: &[Row<'static>] = &[
    (
        "nothing",
        &[],
        b"",
        "filed 0\nhere 0\nno group 0\nrefused 0\n",
    ),
    (
        "an article",
        &[GOOD],
        b"",
        "filed 1\nhere 0\nno group 0\nrefused 0\n",
    ),
    (
        "lines that end in CRLF",
        &[Octets::Are(
            b"Path: p\r\nFrom: a@example.org\r\nNewsgroups: x.a\r\nSubject: s\r\n\
              Date: Sun, 09 Sep 2001 01:46:40 +0000\r\nMessage-ID: <2@far.example>\r\n\r\nhi\r\n",
        )],
        b"",
        "filed 1\nhere 0\nno group 0\nrefused 0\n",
    ),
    (
        "an article that is here, and another one twice",
        &[GOOD, OTHER, OTHER],
        b"",
        "filed 1\nhere 2\nno group 0\nrefused 0\n",
    ),
    (
        "a group that takes no posts",
        &[Octets::Are(
            b"Path: p\nFrom: a@example.org\nNewsgroups: x.closed\nSubject: s\n\
              Date: Sun, 09 Sep 2001 01:46:40 +0000\nMessage-ID: <3@far.example>\n\nhi\n",
        )],
        b"",
        "filed 1\nhere 0\nno group 0\nrefused 0\n",
    ),
    (
        "no group of the volume",
        &[Octets::Are(
            b"Path: p\nFrom: a@example.org\nNewsgroups: y.b\nSubject: s\n\
              Date: Sun, 09 Sep 2001 01:46:40 +0000\nMessage-ID: <4@far.example>\n\nhi\n",
        )],
        b"",
        "filed 0\nhere 0\nno group 1\nrefused 0\n",
    ),
    (
        "an id of the host's own",
        &[Octets::Are(
            b"Path: p\nFrom: a@example.org\nNewsgroups: x.a\nSubject: s\n\
              Date: Sun, 09 Sep 2001 01:46:40 +0000\nMessage-ID: <9@news.example>\n\nhi\n",
        )],
        b"",
        "article 1 at octet 0: the message-id is one of this host's own\nfiled 0\nhere 0\n\
         no group 0\nrefused 1\n  1 the message-id is one of this host's own\n",
    ),
    (
        "a last line without its end",
        &[GOOD, Octets::Are(b"Path: p\n\nhi")],
        b"",
        "article 2 at octet 142: it holds NUL or a single CR, or its last line has no end\n\
         filed 0\nhere 1\nno group 0\n\
         refused 1\n  1 it holds NUL or a single CR, or its last line has no end\n",
    ),
    (
        "a header without its end",
        &[Octets::Are(b"Path: p\n")],
        b"",
        "article 1 at octet 0: no empty line follows the header\nfiled 0\nhere 0\nno group 0\n\
         refused 1\n  1 no empty line follows the header\n",
    ),
    (
        "a line that is no field",
        &[Octets::Are(b"Path p\n\nhi\n")],
        b"",
        "article 1 at octet 0: a line of the header is no field\nfiled 0\nhere 0\nno group 0\n\
         refused 1\n  1 a line of the header is no field\n",
    ),
    (
        "a field twice",
        &[Octets::Are(b"Path: p\nPath: q\n\nhi\n")],
        b"",
        "article 1 at octet 0: a field occurs twice\nfiled 0\nhere 0\nno group 0\nrefused 1\n  1 a field occurs twice\n",
    ),
    (
        "a field that is missing",
        &[Octets::Are(b"Path: p\n\nhi\n")],
        b"",
        "article 1 at octet 0: a mandatory field is missing\nfiled 0\nhere 0\nno group 0\nrefused 1\n  1 a mandatory field is missing\n",
    ),
    (
        "an id that is none",
        &[Octets::Are(
            b"Path: p\nFrom: a@example.org\nNewsgroups: x.a\nSubject: s\nDate: Sun, 09 Sep 2001 01:46:40 +0000\nMessage-ID: 9\n\nhi\n",
        )],
        b"",
        "article 1 at octet 0: the message-id isn't valid\nfiled 0\nhere 0\nno group 0\nrefused 1\n  1 the message-id isn't valid\n",
    ),
    (
        "a group twice",
        &[Octets::Are(
            b"Path: p\nFrom: a@example.org\nNewsgroups: x.a,x.a\nSubject: s\n\
              Date: Sun, 09 Sep 2001 01:46:40 +0000\nMessage-ID: <5@far.example>\n\nhi\n",
        )],
        b"",
        "article 1 at octet 0: its groups aren't 1 to 16 different group names\nfiled 0\nhere 0\n\
         no group 0\nrefused 1\n  1 its groups aren't 1 to 16 different group names\n",
    ),
    (
        "a header that is too long",
        &[Octets::Long(
            b"Path: p\nFrom: a@example.org\nNewsgroups: x.a\nDate: Sun, 09 Sep 2001 01:46:40 +0000\nMessage-ID: <6@far.example>\nSubject: ",
            b's',
            8192,
            b"\n\nhi\n",
        )],
        b"",
        "article 1 at octet 0: its header has more than 8192 octets, or the article more than 262144\n\
         filed 0\nhere 0\nno group 0\n\
         refused 1\n  1 its header has more than 8192 octets, or the article more than 262144\n",
    ),
    (
        "no batch after an article",
        &[GOOD],
        b"hi\n",
        "filed 0\nhere 1\nno group 0\nrefused 0\nE14 Bad: octet 142: no line `#! rnews LENGTH`\n",
    ),
    (
        "a length that is none",
        &[],
        b"#! rnews x\n",
        "filed 0\nhere 0\nno group 0\nrefused 0\nE14 Bad: octet 0: the length is no number\n",
    ),
    (
        "a text that is too long, and cut short",
        &[],
        b"#! rnews 262145\n",
        "article 1 at octet 0: its header has more than 8192 octets, or the article more than 262144\n\
         filed 0\nhere 0\nno group 0\nrefused 1\n  1 its header has more than 8192 octets, or the article more than 262144\n\
         E14 Bad: octet 16: the batch is cut short\n",
    ),
    (
        "a text that is too long is passed over",
        &[Octets::Long(b"Path: p\n\n", b's', 262_144, b"\n"), GOOD],
        b"",
        "article 1 at octet 0: its header has more than 8192 octets, or the article more than 262144\n\
         filed 0\nhere 1\nno group 0\nrefused 1\n  1 its header has more than 8192 octets, or the article more than 262144\n",
    ),
    (
        "a text that is cut short",
        &[GOOD],
        b"#! rnews 9\nPath",
        "filed 0\nhere 1\nno group 0\nrefused 0\nE14 Bad: octet 142: the batch is cut short\n",
    ),
];

/// The rows, as a function, so that no proof of a test reads them.
fn rows() -> &'static [Row<'static>] {
    ROWS
}

#[test]
fn each_batch_is_filed_as_transfers_are(rt: HostRuntime) -> Result<(), Fail> {
    let alloc = rt.alloc();
    let mut store = store(alloc)?;
    for (name, texts, rest, expected) in rows() {
        let octets = batch(alloc, texts, rest)?;
        let found = said(alloc, &mut store, &octets)?;
        assert_eq!(rt; found.as_str(), *expected, "{name}");
    }
    Ok(())
}

/// A volume with 64 inodes, six of them for its groups, and more articles than that.
#[test]
fn a_full_volume_ends_an_import(rt: HostRuntime) -> Result<(), Fail> {
    let alloc = rt.alloc();
    let mut store = store(alloc)?;
    let octets = articles(alloc, 0, 60)?;
    let found = said(alloc, &mut store, &octets)?;
    assert_eq!(rt;
        found.as_str(),
        "filed 58\nhere 0\nno group 0\nrefused 0\nE6 Full: article 59 at octet 8052: too few inodes are free\n"
    );
    Ok(())
}
