//! Files, standard output and the clock of the host.

use rad_edge::{HostClock, HostFiles, HostShelf, HostSink};
use rad_outside::{Clock, Files, Found, Listed, Shelf, Sink};
use std::alloc::Global;
use std::fs;
use std::test::Fail;

const TEXT: &[u8] = b"client nas {\n}\n";

fn read<F: Files>(files: &mut F, alloc: Global, path: &str) -> Found {
    files.begin();
    files.read(alloc, path)
}

#[test]
fn files_are_read_and_missed(rt: HostRuntime) -> Result<(), Fail> {
    let alloc: Global = rt.alloc();
    fs::write(&rt, "radiusd.conf", TEXT)?;
    fs::create_dir(&rt, "folder")?;
    let mut files = HostFiles::new(&rt);
    let found = read(&mut files, alloc, "radiusd.conf");
    assert!(rt; matches!(&found, Found::Bytes(octets) if octets.as_slice() == TEXT));
    assert!(rt; matches!(read(&mut files, alloc, "users"), Found::Missing));
    assert!(rt; matches!(read(&mut files, alloc, "folder"), Found::Failed));
    HostSink::new(&rt).write(b"listening\n")?;
    assert!(rt; HostClock::new(&rt).now() > 1_600_000_000);
    Ok(())
}

/// Whether a folder has just the files `a.conf` and `b`, in this order.
fn has_a_and_b(listed: &Listed) -> bool {
    let Listed::Names(names) = listed else {
        return false;
    };
    names.len() == 2
        && names
            .get(0)
            .is_some_and(|name| name.as_slice() == b"a.conf".as_slice())
        && names
            .get(1)
            .is_some_and(|name| name.as_slice() == b"b".as_slice())
}

#[test]
fn folders_are_listed_in_order(rt: HostRuntime) -> Result<(), Fail> {
    let alloc: Global = rt.alloc();
    fs::create_dir_all(&rt, "site/empty")?;
    fs::write(&rt, "site/b", TEXT)?;
    fs::write(&rt, "site/a.conf", TEXT)?;
    let mut files = HostFiles::new(&rt);
    assert!(rt; has_a_and_b(&files.list(alloc, "site")));
    assert!(rt;
        matches!(files.list(alloc, "site/empty"), Listed::Names(names) if names.len() == 0)
    );
    assert!(rt; matches!(files.list(alloc, "site/none"), Listed::Missing));
    assert!(rt; matches!(files.list(alloc, "site/b"), Listed::Missing));
    Ok(())
}

#[test]
fn pieces_are_appended_below_new_folders(rt: HostRuntime) -> Result<(), Fail> {
    let alloc: Global = rt.alloc();
    let mut shelf = HostShelf::new(&rt);
    shelf.append("log/day/detail", b"one\n")?;
    shelf.append("log/day/detail", b"two\n")?;
    let found = read(&mut HostFiles::new(&rt), alloc, "log/day/detail");
    assert!(rt;
        matches!(&found, Found::Bytes(octets) if octets.as_slice() == b"one\ntwo\n".as_slice())
    );
    assert!(rt; shelf.append("log/day", b"three\n").is_err());
    Ok(())
}
