//! What the contracts can't say: that calls find memory. Folders of files are published against replies that are written
//! by hand, and each request is compared with what `tools/publisher_vectors.py` says of it.
ghost use Rattle.std.specs.Prelude.{◌≡◌, true, false, IfOk};

use cv_base::{Bytes, Items, Kind, Name, ObjectId, RepoPath, Text, ends_in_marker};
use cv_http::{HttpReply, Outgoing};
use cv_keys::KeyTable;
use cv_overlay::read_folder;
use cv_ports::{Folder, FolderItem, FoundKind, MemoryFolder};
use cv_publisher::{PublishFault, Publisher, Want};
use cv_seal::KeyedHash;
use std::alloc::Global;
use std::test::Fail;

/// The moment of the empty tree, and of what is published.
const NOW: u64 = 1_700_000_000;

/// The catalogue of the empty tree.
const CATALOGUE: &[u8] =
    b"CVR1\x00\x00\x00\x01\x00\x00\x00\x00\xd4\x1d\x8c\xd9\x8f\x00\xb2\x04\xe9\x80\x09\x98\xec\xf8B~\x00\x00\x00\x00\x00\x00\x00\x00\x00\x00\x00\x00\x00\x00\x00\x00\x00\x00\x00\x01\x00\x00A\xed\x00\x00\x00\x00eS\xf1\x00\x00\x00\x00\x00\x00\x00\x00\x00\x00\x00\x00\x00\x00\x00\x00\x00\x00\x00\x00\x00\x00";

/// A manifest of it, under the seal `seal`.
const MANIFEST: &[u8] =
    b"C307aac20fe5391faacd0ea38f9589fb797a3685c\nB81\nRd41d8cd98f00b204e9800998ecf8427e\nD240\nS1\nNsw.example.org\nH5555555555555555555555555555555555555555\nT1700000000\n--\nb6513bbd46a646ae263d8babf06b1de3b52719cb\nG\x04\x92\x07\xb7\xc0\xe1\xf1[\xcb\x98\x17\xcdv\xc0\x984p\x1b\xa5";

/// The root catalogue of a tree with a directory that has one of its own.
const OUTER: &[u8] =
    b"CVR1\x00\x00\x00\x02\x00\x00\x00\x01\xb8R\xca\x18\xb8g\x01\xa4\x86\x006lP\xbc\x1c\xbc\xd4\x1d\x8c\xd9\x8f\x00\xb2\x04\xe9\x80\x09\x98\xec\xf8B~\x00\x00\x00\x03\x00\x00A\xed\x00\x00\x00\x00eS\xf1\x00\x00\x00\x00\x00\x00\x00\x00\x00\x00\x00\x00\x00\x00\x00\x00\x00\x00\x00\x01n\x00\x00\xd4\x1d\x8c\xd9\x8f\x00\xb2\x04\xe9\x80\x09\x98\xec\xf8B~\x00\x00\x00\x00\x00\x00\x00\x00\x00\x00\x00\x00\x00\x00\x00\x00\x00\x00\x00\x01\x00\x00A\xed\x00\x00\x00\x00eS\xf1\x00\x00\x00\x00\x00\x00\x00\x00\x00\x00\x00\x00\x00\x00\x00\x00\x00\x00\x00\x00\x00\x00\x00\x02/n\x8d\xab02\x9a\"\xb9%\x8d\xb33-\xc4\xc2\xcf\x83\xb6-\xe3\xc7\x00\x00\x00\x00\x00\x00\x01\x12";

/// That directory's.
const INNER: &[u8] =
    b"CVR1\x00\x00\x00\x03\x00\x00\x00\x00\xab\x9c\xbc\x96\x89\x9f\xb0\xb9\xcb\xf8f\xc6\x01\x18.\x08\xb8R\xca\x18\xb8g\x01\xa4\x86\x006lP\xbc\x1c\xbc\x00\x00\x00\x04\x00\x00\x81\xa4\x00\x00\x00\x00eS\xf1\x00\x00\x00\x00\x00\x00\x00\x00\x00\x00\x00\x00\x00\x00\x00\x00\x00\x14\xda9\xa3\xee^kK\r2U\xbf\xef\x95`\x18\x90\xaf\xd8\x07\x09\x00\r.cvmfscatalog\x00\x00\xb8R\xca\x18\xb8g\x01\xa4\x86\x006lP\xbc\x1c\xbc\xd4\x1d\x8c\xd9\x8f\x00\xb2\x04\xe9\x80\x09\x98\xec\xf8B~\x00\x00\x00!\x00\x00A\xed\x00\x00\x00\x00eS\xf1\x00\x00\x00\x00\x00\x00\x00\x00\x00\x00\x00\x00\x00\x00\x00\x00\x00\x00\x00\x01n\x00\x00\xcf\x04\x0ec\xf4^*\xf3\x84\xb1h\xa7\xf1\x11\xa2h\xb8R\xca\x18\xb8g\x01\xa4\x86\x006lP\xbc\x1c\xbc\x00\x00\x00\x04\x00\x00\x81\xa4\x00\x00\x00\x00eS\xf1\x00\x00\x00\x00\x00\x00\x00\x00\x00\x00\x00\x00\x00\x00\x00\x00\x01\x14\x11\xf6\xad\x8e\xc5*)\x84\xab\xaa\xfd|;Qe\x03x\\ r\x00\x01x\x00\x00";

/// A manifest of that tree.
const OUTER_MANIFEST: &[u8] =
    b"Cbf9d6b931207d6e8539641f9e25e4aa8fde88a85\nB183\nRd41d8cd98f00b204e9800998ecf8427e\nD240\nS1\nNsw.example.org\nH5555555555555555555555555555555555555555\nT1700000000\n--\n298545027d018054d842901ffad279b6ff1a5bd2\n\"n\xfc\xfcR\xd8k\x1e\xea.C3^\x9e$\x96\x92D\xc8\xe8";

/// The request for the end of the lease.
const CANCEL: &str =
    "DELETE /api/v1/leases/1-1 k1 NGI4MjQzZjE5NWRkOGE1OGQzYTE4MjBhMTFiZjcxZjE1YjQ4MjExYg== - 0 da39a3ee5e6b4b0d3255bfef95601890afd80709";

/// The requests of a publication of a file at `/r`, in order: method, target, Authorization, Message-Size, and length and SHA-1 of
/// the body.
static BELOW: [&str; 5] = [
    "POST /api/v1/leases k1 NGEzZmZiOGRjMTNiOGI2MmJkY2E1NDUxN2FkY2E3MTU4YTllOWRjZA== - 27 eefe9dc901192d69664d194fb5cbd00d8e1b45b9",
    "GET /cvmfs/sw.example.org/.cvmfspublished - - 0 da39a3ee5e6b4b0d3255bfef95601890afd80709",
    "GET /cvmfs/sw.example.org/data/30/7aac20fe5391faacd0ea38f9589fb797a3685cC - - 0 da39a3ee5e6b4b0d3255bfef95601890afd80709",
    "POST /api/v1/payloads k1 MTc1YTJlODJiODYzMDYxN2ZmYTQzOTBmM2Q2NjZjNTgwMDU0NjFlYg== 101 455 fdd4dcc0df55dffcbc68ee3a5619a1086404cd47",
    "POST /api/v1/leases/1-1 k1 NGI4MjQzZjE5NWRkOGE1OGQzYTE4MjBhMTFiZjcxZjE1YjQ4MjExYg== - 133 143b0a8068ee5ab0b58b5414fade9d9576c579a9",
];

/// The requests of a publication of two equal files at the root: the catalogue below is fetched, and isn't sent again.
static AT_THE_ROOT: [&str; 6] = [
    "POST /api/v1/leases k1 YTM5NDNiMTg3MzI4NjQ1MTU4YWExZTVmYjEzZGY3NjkxMWZmOGM5Yg== - 25 f4d2928d4a8269dfe056a6fafbb943f1e5309fe1",
    "GET /cvmfs/sw.example.org/.cvmfspublished - - 0 da39a3ee5e6b4b0d3255bfef95601890afd80709",
    "GET /cvmfs/sw.example.org/data/bf/9d6b931207d6e8539641f9e25e4aa8fde88a85C - - 0 da39a3ee5e6b4b0d3255bfef95601890afd80709",
    "GET /cvmfs/sw.example.org/data/8d/ab30329a22b9258db3332dc4c2cf83b62de3c7C - - 0 da39a3ee5e6b4b0d3255bfef95601890afd80709",
    "POST /api/v1/payloads k1 MzAxY2ZmYjAzNTQwZmU1MTg0MGIyZjdmNjJkNzQ0OTQzOGY4ZTY2Ng== 101 577 fd5ec431266530c9acede8dfdc653369de4854f5",
    "POST /api/v1/leases/1-1 k1 NGI4MjQzZjE5NWRkOGE1OGQzYTE4MjBhMTFiZjcxZjE1YjQ4MjExYg== - 133 60a1d7227edf7903168081c02d7d12a21a63ba0f",
];

/// The name of a reply, its code and its body.
static REPLIES: [(&str, u16, &[u8]); 15] = [
    (
        "granted",
        200,
        b"{\"revision\":1,\"root_hash\":\"307aac20fe5391faacd0ea38f9589fb797a3685c\",\"session_token\":\"1-1\",\"status\":\"ok\"}",
    ),
    ("manifest", 200, MANIFEST),
    ("catalogue", 200, CATALOGUE),
    ("outer-manifest", 200, OUTER_MANIFEST),
    ("outer", 200, OUTER),
    ("inner", 200, INNER),
    ("done", 200, b"{\"status\":\"ok\"}"),
    (
        "committed",
        200,
        b"{\"final_revision\":2,\"root_hash\":\"f3da19c051fe91dde17c9b4607adec4c0db2a6f8\",\"status\":\"ok\"}",
    ),
    (
        "busy",
        200,
        b"{\"lease\":\"1-2\",\"status\":\"path_busy\",\"time_remaining\":9}",
    ),
    (
        "refused",
        200,
        b"{\"reason\":\"store_failed\",\"status\":\"error\"}",
    ),
    (
        "collision",
        200,
        b"{\"path\":\"/r/a\",\"reason\":\"path_collision\",\"second\":\"/r/b\",\"status\":\"error\"}",
    ),
    ("other", 200, b"hello"),
    ("failed", 500, b""),
    ("absent", 404, b""),
    ("gone", 410, b"{\"status\":\"ok\"}"),
];

/// Where a folder with this file is published, the replies one after another, and the end; each but those of the first two
/// rows and the last ends its lease.
static ROWS: [(&str, &str, &str, &str); 19] = [
    ("/r", "f", "busy", "refused"),
    ("/r", "f", "done", "bad reply"),
    ("/r", "f", "granted failed failed", "bad reply"),
    ("/r", "f", "granted absent done", "bad reply"),
    ("/r", "f", "granted other done", "bad manifest"),
    ("/r", "f", "granted manifest absent busy", "not served"),
    ("/r", "f", "granted manifest failed done", "bad reply"),
    ("/r", "f", "granted manifest other done", "bad object"),
    (
        "/r",
        ".wh.",
        "granted manifest catalogue done",
        "bad whiteout",
    ),
    ("/x/y", "f", "granted manifest catalogue done", "no parent"),
    (
        "/r",
        "f",
        "granted manifest catalogue refused gone",
        "refused",
    ),
    (
        "/r",
        "f",
        "granted manifest catalogue busy other",
        "refused",
    ),
    (
        "/r",
        "f",
        "granted manifest catalogue committed done",
        "bad reply",
    ),
    (
        "/r",
        "f",
        "granted manifest catalogue gone done",
        "bad reply",
    ),
    (
        "/r",
        "f",
        "granted manifest catalogue done collision done",
        "refused",
    ),
    (
        "/r",
        "f",
        "granted manifest catalogue done granted done",
        "bad reply",
    ),
    (
        "/r",
        "f",
        "granted manifest catalogue done other done",
        "bad reply",
    ),
    (
        "/r",
        "f",
        "granted manifest catalogue done absent refused",
        "bad reply",
    ),
    (
        "/r",
        "f",
        "granted manifest catalogue done committed",
        "revision 2",
    ),
];

/// The digits of a size, where there is one.
fn size_text(alloc: Global, size: Option<u64>) -> Result<String, Fail> {
    match size {
        Some(size) => Ok(size.to_string(alloc)?),
        None => Ok(String::from_str(alloc, "-")?),
    }
}

/// The length and the digits of the SHA-1 of a body.
fn body_text(alloc: Global, body: &[u8]) -> Result<String, Fail> {
    let length = body.len();
    let hash = ObjectId::of(Kind::Plain, body).text(alloc)?;
    Ok(format!(in alloc; "{length} {hash}")?)
}

/// The text of a request.
fn request_text(alloc: Global, request: &Outgoing) -> Result<String, Fail> {
    let method = request.method.text();
    let target = request.target.as_str();
    let header = match &request.authorization {
        Some(text) => text.as_str(),
        None => "-",
    };
    let message = size_text(alloc, request.message_size)?;
    let body = body_text(alloc, request.body.as_slice())?;
    Ok(format!(in alloc; "{method} {target} {header} {message} {body}")?)
}

/// The text of a fault.
fn fault_text(fault: &PublishFault) -> &'static str {
    match fault {
        PublishFault::Refused(_) => "refused",
        PublishFault::BadReply => "bad reply",
        PublishFault::BadManifest(_) => "bad manifest",
        PublishFault::BadObject { .. } => "bad object",
        PublishFault::NotServed(_) => "not served",
        PublishFault::BadCatalogue(_) => "bad catalogue",
        PublishFault::BadWhiteout(_) => "bad whiteout",
        PublishFault::PathCollision { .. } => "path collision",
        PublishFault::CatalogueFull(_) => "catalogue full",
        PublishFault::NoParent => "no parent",
        PublishFault::NoMemory => "no memory",
    }
}

/// The text of what is wanted.
fn want_text(alloc: Global, want: &Want) -> Result<String, Fail> {
    match want {
        Want::Exchange(request) => request_text(alloc, request),
        Want::Done(Ok(revision)) => Ok(format!(in alloc; "revision {revision}")?),
        Want::Done(Err(fault)) => Ok(String::from_str(alloc, fault_text(fault))?),
    }
}

/// The keys, of which the first is used.
fn two_keys(alloc: Global) -> Result<KeyTable, Fail> {
    let read = KeyTable::read(
        alloc,
        b"{\"keys\":[{\"id\":\"k1\",\"secret\":\"s1\"},{\"id\":\"k2\",\"secret\":\"s2\"}]}",
    );
    match read {
        Ok(keys) => Ok(keys),
        Err(_) => Err(Fail::from("no keys")),
    }
}

/// The reply of this name.
fn reply_of(alloc: Global, name: &str) -> Result<HttpReply, Fail> {
    for (own, code, body) in &REPLIES {
        if *own == name {
            let code = *code;
            let body = Bytes::from_slice(alloc, body)?;
            return Ok(HttpReply { code, body });
        }
    }
    Err(Fail::from("no reply"))
}

/// One end of a publication: a publisher is made of much, and what goes through one is proved over any.
trait Talks {
    /// The text of what it wants.
    fn wants(&mut self, alloc: Global) -> Result<String, Fail>;

    /// Gives it the reply of this name.
    fn takes(&mut self, alloc: Global, name: &str) -> Result<(), Fail>;
}

impl Talks for Publisher {
    fn wants(&mut self, alloc: Global) -> Result<String, Fail> {
        let keys = two_keys(alloc)?;
        want_text(alloc, &self.want(alloc, &keys)?)
    }

    fn takes(&mut self, alloc: Global, name: &str) -> Result<(), Fail> {
        let signer = KeyedHash::new(String::from_str(alloc, "seal")?);
        self.take(alloc, reply_of(alloc, name)?, &signer);
        Ok(())
    }
}

/// What is wanted before each of these replies and behind the last, a line each.
fn talk<T: Talks>(alloc: Global, publisher: &mut T, replies: &str) -> Result<String, Fail> {
    let mut lines = String::new(alloc);
    for reply in replies.split(' ') {
        lines.push_str(publisher.wants(alloc)?.as_str())?;
        lines.push('\n')?;
        publisher.takes(alloc, reply)?;
    }
    lines.push_str(publisher.wants(alloc)?.as_str())?;
    Ok(lines)
}

/// Files of these names.
fn items_of(alloc: Global, names: &str) -> Result<Vec<FolderItem>, Fail> {
    let mut items = Vec::new(alloc);
    for name in names.split(' ') {
        items.push(FolderItem {
            name: Text::from_str(alloc, name)?,
            kind: FoundKind::File,
            mode: 0o644,
            mtime: NOW,
        })?;
    }
    Ok(items)
}

/// What they contain.
fn contents_of(alloc: Global, names: &str) -> Result<Vec<(RepoPath, Bytes)>, Fail> {
    let mut files = Vec::new(alloc);
    for name in names.split(' ') {
        let path = RepoPath::root(alloc).join(alloc, name)?;
        files.push((path, Bytes::from_slice(alloc, b"hello\n")?))?;
    }
    Ok(files)
}

/// A folder of these files.
fn folder(alloc: Global, names: &str) -> Result<MemoryFolder, Fail> {
    let items = Items::new(items_of(alloc, names)?);
    let directories = vec![in alloc; (RepoPath::root(alloc), items)]?;
    let files = contents_of(alloc, names)?;
    let made = MemoryFolder::new(directories, files, Vec::new(alloc));
    Ok(made.ok_or("out of order")?)
}

/// The name of the repository.
fn repository(alloc: Global) -> Result<Name, Fail> {
    Ok(Name::read(alloc, "sw.example.org")?.ok_or("no name")?)
}

/// A publisher of a folder at a path.
fn publisher<F: Folder>(alloc: Global, path: RepoPath, folder: &mut F) -> Result<Publisher, Fail> {
    if ends_in_marker(&path) {
        return Err(Fail::from("a marker"));
    }
    let name = repository(alloc)?;
    let host = Text::from_str(alloc, "h:81")?;
    let Ok(changes) = read_folder(alloc, folder, &path) else {
        return Err(Fail::from("no changes"));
    };
    Ok(Publisher::new(alloc, name, host, path, changes, NOW)?)
}

/// What a publication wants of a folder of these files at a path.
fn told(alloc: Global, path: &str, names: &str, replies: &str) -> Result<String, Fail> {
    let mut folder = folder(alloc, names)?;
    let path = RepoPath::read(alloc, path)?;
    let mut publisher = publisher(alloc, path, &mut folder)?;
    talk(alloc, &mut publisher, replies)
}

/// Whether these requests are told, and then the revision 2.
fn becomes_a_revision(told: &str, requests: &[&'static str]) -> bool {
    let mut lines = told.split('\n');
    for request in requests {
        if lines.next() != Some(*request) {
            return false;
        }
    }
    lines.next() == Some("revision 2") && lines.next().is_none()
}

#[test]
fn a_folder_becomes_a_revision(rt: HostRuntime) -> Result<(), Fail> {
    let replies = "granted manifest catalogue done committed";
    let told = told(rt.alloc(), "/r", "f", replies)?;
    assert!(rt; becomes_a_revision(told.as_str(), &BELOW));
    Ok(())
}

#[test]
fn equal_files_are_sent_once_and_unchanged_catalogues_not(rt: HostRuntime) -> Result<(), Fail> {
    let replies = "granted outer-manifest outer inner done committed";
    let told = told(rt.alloc(), "", "f g", replies)?;
    assert!(rt; becomes_a_revision(told.as_str(), &AT_THE_ROOT));
    Ok(())
}

/// Whether a story has this end, and the lease's before it or not.
fn ends_so(told: &str, end: &str, cancelled: bool) -> bool {
    let mut lines = told.rsplit('\n');
    let (last, before) = (lines.next(), lines.next());
    (before == Some(CANCEL)) == cancelled && last == Some(end)
}

#[test]
fn each_fault_ends_the_lease_and_is_told(rt: HostRuntime) -> Result<(), Fail> {
    for (path, name, replies, end) in &ROWS {
        let told = told(rt.alloc(), path, name, replies)?;
        let cancelled = replies.contains(' ') && *end != "revision 2";
        assert!(rt; ends_so(told.as_str(), end, cancelled));
    }
    Ok(())
}
