//! Files of the host, in a folder of the test's own.
use k_edge::{Files, HostFiles, LoadFault, SaveFault};
use std::alloc::Global;
use std::process::Abort;
use std::test::Fail;
use std::{env, fs, process};

/// Loads a name within a limit once for each wanted answer.
fn expect_loads<F: Files>(
    rt: &impl Abort,
    alloc: Global,
    files: &mut F,
    wanted: &[(&'static str, u64, Result<&'static str, LoadFault>)],
) {
    for (name, limit, want) in wanted {
        match files.load(alloc, name, *limit) {
            Ok(bytes) => assert!(rt;
                matches!(want, Ok(text) if text.as_bytes() == bytes.as_slice())
            ),
            Err(fault) => assert!(rt; matches!(want, Err(other) if *other == fault)),
        }
    }
}

#[test]
fn host_files(rt: HostRuntime) -> Result<(), Fail> {
    let id = process::id(rt.process());
    let mut folder = env::temp_dir(&rt)?;
    folder.push(format!(in rt.alloc(); "k_edge-{id}")?)?;
    fs::create_dir(&rt, folder.as_path())?;
    env::set_current_dir(&rt, folder.as_path())?;
    let mut files = HostFiles::new(rt.clone()?);
    expect_loads(
        &rt,
        rt.alloc(),
        &mut files,
        &[("a.c", 9, Err(LoadFault::Absent))],
    );
    assert_eq!(rt; files.save(rt.alloc(), "a.c", b"int main"), Ok(()));
    assert_eq!(rt; files.save(rt.alloc(), "a.c", b"main"), Ok(()));
    let saved = [
        ("a.c", u64::MAX, Ok("main")),
        ("a.c", 4, Ok("main")),
        ("a.c", 3, Err(LoadFault::TooLong)),
        (".", 9, Err(LoadFault::Failed)),
        ("a.c/b.c", 9, Err(LoadFault::Failed)),
    ];
    expect_loads(&rt, rt.alloc(), &mut files, &saved);
    assert_eq!(rt;
        files.save(rt.alloc(), ".", b"main"),
        Err(SaveFault::Failed)
    );
    assert_eq!(rt;
        files.save(rt.alloc(), "b/a.c", b"main"),
        Err(SaveFault::Failed)
    );
    fs::remove_dir_all(&rt, folder.as_path())?;
    Ok(())
}
