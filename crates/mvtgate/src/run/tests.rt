use super::run;
use std::rt::Files;
use std::test::Fail;
use std::{env, fs, process};

const POINT: &[u8] = b"\x1a\x0e\x78\x02\x0a\x01\x61\x12\x07\x18\x01\x22\x03\x09\x32\x22";

/// A layer with neither a name nor a version: its field is whole, and its message is no layer.
const NO_LAYER: &[u8] = b"\x1a\x00";

/// A layer of version 1, which is a tile and breaks a rule.
const VERSION_ONE: &[u8] = b"\x1a\x05\x78\x01\x0a\x01\x61";

/// The status of a run. What it prints is left aside.
fn status(rt: &HostRuntime, texts: &[&str]) -> Result<u8, Fail> {
    let mut words = Vec::new(rt.alloc());
    for text in texts {
        words.push(String::from_str(rt.alloc(), text)?)?;
    }
    Ok(run(rt, &words))
}

/// The statuses of a command on some files.
fn statuses(rt: &HostRuntime, word: &str, files: &[&str]) -> Result<Vec<u8>, Fail> {
    let mut statuses = Vec::new(rt.alloc());
    for file in files {
        statuses.push(status(rt, &["mvtgate", word, *file])?)?;
    }
    Ok(statuses)
}

/// The statuses of `check` with advice on some files.
fn statuses_of_advice(rt: &HostRuntime, files: &[&str]) -> Result<Vec<u8>, Fail> {
    let mut statuses = Vec::new(rt.alloc());
    for file in files {
        statuses.push(status(rt, &["mvtgate", "check", "--advice", *file])?)?;
    }
    Ok(statuses)
}

#[test]
fn exits_by_the_words(rt: HostRuntime) -> Result<(), Fail> {
    assert!(rt; status(&rt, &["mvtgate"])? == 2);
    assert!(rt; status(&rt, &["mvtgate", "nothing"])? == 2);
    assert!(rt; status(&rt, &["mvtgate", "fields", "a", "b"])? == 2);
    assert!(rt; status(&rt, &["mvtgate", "check", "a", "b"])? == 2);
    assert!(rt; status(&rt, &["mvtgate", "dump", "a", "b"])? == 2);
    assert!(rt; status(&rt, &["mvtgate", "confirm", "a"])? == 2);
    assert!(rt; status(&rt, &["mvtgate", "fields", "--help"])? == 0);
    assert!(rt; status(&rt, &["mvtgate", "check", "--help"])? == 0);
    assert!(rt; status(&rt, &["mvtgate", "confirm", "--help"])? == 0);
    assert!(rt; status(&rt, &["mvtgate", "--version"])? == 0);
    assert!(rt; status(&rt, &["mvtgate", "check", "--profile", "ring"])? == 2);
    assert!(rt; status(&rt, &["mvtgate", "check", "--profile"])? == 2);
    assert!(rt; status(&rt, &["mvtgate", "dump", "--profile", "polygon"])? == 2);
    assert!(rt; status(&rt, &["mvtgate", "fields", "--profile", "polygon"])? == 2);
    assert!(rt; status(&rt, &["mvtgate", "check", "--advice=true", "a"])? == 2);
    assert!(rt; status(&rt, &["mvtgate", "check", "--advise", "a"])? == 2);
    assert!(rt; status(&rt, &["mvtgate", "dump", "--advice", "a"])? == 2);
    assert!(rt; status(&rt, &["mvtgate", "confirm", "--advice", "a", "b"])? == 2);
    assert!(rt; status(&rt, &["mvtgate", "dump", "--not-empty", "a"])? == 2);
    assert!(rt; status(&rt, &["mvtgate", "fields", "--not-empty", "a"])? == 2);
    assert!(rt; status(&rt, &["mvtgate", "confirm", "--not-empty", "a", "b"])? == 2);
    Ok(())
}

/// Two squares that overlap.
const OVERLAP: &[u8] =
    b"\x1a\x21\x78\x02\x0a\x01\x61\x12\x1a\x18\x03\x22\x16\x09\x00\x00\x1a\x14\x00\x00\x14\x13\x00\x0f\x09\x0a\x09\x1a\x14\x00\x00\x14\x13\x00\x0f";

const IN_POLYGON: &[u8] =
    b"{\"code\":507,\"feature\":0,\"layer\":0,\"other\":1,\"polygon\":0,\"vertex\":2}";

#[test]
fn exits_by_the_profile(rt: HostRuntime) -> Result<(), Fail> {
    let name = format!(in rt.alloc(); "mvtgate_profiles_{}", process::id(rt.process()))?;
    let folder = env::temp_dir(&rt)?.join(rt.alloc(), name.as_str())?;
    fs::create_dir_all(&rt, &folder)?;
    let overlap = folder.join(rt.alloc(), "overlap.mvt")?;
    fs::write(&rt, &overlap, OVERLAP)?;
    let fault = folder.join(rt.alloc(), "fault.json")?;
    fs::write(&rt, &fault, IN_POLYGON)?;
    let (tile, text) = (overlap.as_str(), fault.as_str());
    let mut got = Vec::new(rt.alloc());
    got.push(status(&rt, &["mvtgate", "check", tile])?)?;
    got.push(status(&rt, &["mvtgate", "confirm", tile, text])?)?;
    for profile in ["polygon", "feature"] {
        got.push(status(&rt, &["mvtgate", "check", "--profile", profile, tile])?)?;
        got.push(status(
            &rt,
            &["mvtgate", "check", "--profile", profile, "--advice", tile],
        )?)?;
        got.push(status(
            &rt,
            &["mvtgate", "confirm", "--profile", profile, tile, text],
        )?)?;
    }
    // the folder goes before a wrong status ends the test
    fs::remove_dir_all(&rt, &folder)?;
    assert!(rt; got.as_slice() == [0, 1, 0, 0, 1, 1, 1, 0].as_slice());
    Ok(())
}

#[test]
fn exits_by_the_file(rt: HostRuntime) -> Result<(), Fail> {
    let name = format!(in rt.alloc(); "mvtgate_test_{}", process::id(rt.process()))?;
    let folder = env::temp_dir(&rt)?.join(rt.alloc(), name.as_str())?;
    fs::create_dir_all(&rt, &folder)?;
    let point = folder.join(rt.alloc(), "point.mvt")?;
    fs::write(&rt, &point, POINT)?;
    let cut = folder.join(rt.alloc(), "cut.mvt")?;
    fs::write(&rt, &cut, &POINT[..15])?;
    let no_layer = folder.join(rt.alloc(), "no_layer.mvt")?;
    fs::write(&rt, &no_layer, NO_LAYER)?;
    let version_one = folder.join(rt.alloc(), "version_one.mvt")?;
    fs::write(&rt, &version_one, VERSION_ONE)?;
    let large = folder.join(rt.alloc(), "large.mvt")?;
    fs::create(&rt, &large)?.set_len(67_108_865)?;
    let missing = folder.join(rt.alloc(), "missing.mvt")?;
    // (a folder opens, and cannot be read)
    let files = [
        point.as_str(),
        cut.as_str(),
        no_layer.as_str(),
        version_one.as_str(),
        large.as_str(),
        missing.as_str(),
        folder.as_str(),
    ];
    let listed = statuses(&rt, "fields", &files)?;
    let checked = statuses(&rt, "check", &files)?;
    let advised = statuses_of_advice(&rt, &files)?;
    let dumped = statuses(&rt, "dump", &files)?;
    // the folder goes before a wrong status ends the test
    fs::remove_dir_all(&rt, &folder)?;
    // (the third and the fourth tell each command from the others)
    assert!(rt; listed.as_slice() == [0, 1, 0, 0, 3, 3, 3].as_slice());
    assert!(rt; checked.as_slice() == [0, 1, 1, 1, 3, 3, 3].as_slice());
    assert!(rt; advised.as_slice() == checked.as_slice());
    assert!(rt; dumped.as_slice() == [0, 1, 1, 0, 3, 3, 3].as_slice());
    Ok(())
}

#[test]
fn exits_by_the_first_byte(rt: HostRuntime) -> Result<(), Fail> {
    let name = format!(in rt.alloc(); "mvtgate_bytes_{}", process::id(rt.process()))?;
    let folder = env::temp_dir(&rt)?.join(rt.alloc(), name.as_str())?;
    fs::create_dir_all(&rt, &folder)?;
    let file = folder.join(rt.alloc(), "tile.mvt")?;
    let mut got = Vec::new(rt.alloc());
    // (no bytes, a tile, a part of it, and no file)
    for length in [0, 16, 15] {
        fs::write(&rt, &file, &POINT[..length])?;
        got.push(status(&rt, &["mvtgate", "check", file.as_str()])?)?;
        got.push(status(&rt, &["mvtgate", "check", "--not-empty", file.as_str()])?)?;
        got.push(status(
            &rt,
            &["mvtgate", "check", "--advice", "--not-empty", file.as_str()],
        )?)?;
    }
    // the folder goes before a wrong status ends the test
    fs::remove_dir_all(&rt, &folder)?;
    got.push(status(&rt, &["mvtgate", "check", "--not-empty", file.as_str()])?)?;
    assert!(rt; got.as_slice() == [0, 3, 3, 0, 0, 0, 1, 1, 1, 3].as_slice());
    Ok(())
}

/// Texts of fault files: one that is true of the cut tile, one that isn't, one that is no JSON, one
/// that holds no fault, and one with a number out of range.
const FAULTS: [&str; 5] = [
    r#"{"at":0,"code":105,"field":3,"scope":"tile"}"#,
    r#"{"at":1,"code":105,"field":3,"scope":"tile"}"#,
    "{",
    r#"{"ok":true}"#,
    r#"{"at":0,"code":105,"field":4294967296,"scope":"tile"}"#,
];

#[test]
fn exits_by_the_fault(rt: HostRuntime) -> Result<(), Fail> {
    let name = format!(in rt.alloc(); "mvtgate_faults_{}", process::id(rt.process()))?;
    let folder = env::temp_dir(&rt)?.join(rt.alloc(), name.as_str())?;
    fs::create_dir_all(&rt, &folder)?;
    let cut = folder.join(rt.alloc(), "cut.mvt")?;
    fs::write(&rt, &cut, &POINT[..15])?;
    let fault = folder.join(rt.alloc(), "fault.json")?;
    let mut got = Vec::new(rt.alloc());
    got.push(status(&rt, &["mvtgate", "confirm", cut.as_str(), fault.as_str()])?)?;
    for text in FAULTS {
        fs::write(&rt, &fault, text.as_bytes())?;
        got.push(status(&rt, &["mvtgate", "confirm", cut.as_str(), fault.as_str()])?)?;
    }
    // the folder goes before a wrong status ends the test
    fs::remove_dir_all(&rt, &folder)?;
    // (at first there is no file of the fault)
    assert!(rt; got.as_slice() == [3, 0, 1, 5, 5, 5].as_slice());
    Ok(())
}
