//! Tests with the machine's files.
use devices::{DeviceFault, Files, IoFault, Source, SystemFiles, write_all};
use std::alloc::Global;
use std::test::Fail;
use std::{env, fs, process};

/// Writes a file with these bytes.
fn writes<F: Files>(files: &mut F, name: &str, bytes: &[u8]) -> Result<(), IoFault> {
    let mut output = files.create(name)?;
    write_all(&mut output, bytes)?;
    files.close(output)
}

/// Whether a file that was written twice has what was written last.
fn keeps_a_file<F: Files>(files: &mut F, name: &str) -> Result<bool, IoFault> {
    writes(files, name, b"first line\n")?;
    writes(files, name, b"one")?;
    let mut input = files.open(name)?;
    let mut room = [0u8; 64];
    let count = input.read(&mut room)?;
    Ok(&room[..count] == b"one".as_slice() && input.read(&mut room) == Ok(0))
}

/// A name in the temporary folder that no other process uses.
fn temporary_name(rt: &HostRuntime, alloc: Global, name: &str) -> Result<String, Fail> {
    let folder = env::temp_dir(rt)?;
    let id = process::id(rt.process());
    Ok(format!(in alloc; "{}/optplan-{name}-{id}", folder.as_str())?)
}

#[test]
fn the_machine_keeps_files(rt: HostRuntime) -> Result<(), Fail> {
    let name = temporary_name(&rt, rt.alloc(), "tests")?;
    let mut files = SystemFiles::new(&rt);
    assert!(rt; keeps_a_file(&mut files, name.as_str())?);
    fs::remove_file(&rt, name.as_str())?;
    assert!(rt; files.open(name.as_str()).is_err());
    Ok(())
}

/// Whether writing a file with this name fails.
fn fails_to_write(rt: &HostRuntime, name: &str) -> bool {
    writes(&mut SystemFiles::new(rt), name, b"line\n") == Err(IoFault::Device)
}

#[test]
fn the_machine_makes_no_folder(rt: HostRuntime) -> Result<(), Fail> {
    let name = temporary_name(&rt, rt.alloc(), "none/plan")?;
    assert!(rt; fails_to_write(&rt, name.as_str()));
    assert!(rt; !fs::exists(&rt, name.as_str())?);
    Ok(())
}

/// A device that is always full, on machines that have it.
const FULL: &str = "/dev/full";

#[test]
fn the_machine_reports_a_full_device(rt: HostRuntime) -> Result<(), Fail> {
    assert!(rt; !fs::exists(&rt, FULL)? || fails_to_write(&rt, FULL));
    Ok(())
}

/// Whether opening or reading a file with this name fails.
fn fails_to_read(rt: &HostRuntime, name: &str) -> bool {
    let mut room = [0u8; 64];
    match SystemFiles::new(rt).open(name) {
        Ok(mut input) => input.read(&mut room) == Err(DeviceFault),
        Err(fault) => fault == IoFault::Device,
    }
}

#[test]
fn the_machine_reads_no_folder(rt: HostRuntime) -> Result<(), Fail> {
    let folder = env::temp_dir(&rt)?;
    assert!(rt; fails_to_read(&rt, folder.as_str()));
    Ok(())
}
