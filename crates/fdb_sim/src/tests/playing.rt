// Scripts are played over memory.
use fdb_play::run_script;
use std::alloc::Global;
use std::process::Abort;
use std::test::Fail;

/// The script ends with the status, and prints the output.
pub fn check_script(
    rt: &impl Abort,
    alloc: Global,
    script: &[u8],
    status: u8,
    output: &[u8],
) -> Result<(), Fail> {
    let mut reader = script;
    let mut out: Vec<u8> = Vec::new(alloc);
    let ended = run_script(alloc, &mut reader, &mut out)?;
    let is_played = out.as_slice() == output && ended == status;
    assert!(rt; is_played, "the output or the status of {script:?}");
    Ok(())
}

/// Adds a line that begins with the front and goes on with so many letters.
pub fn push_long_line(script: &mut Vec<u8>, before: &[u8], count: usize) -> Result<(), Fail> {
    script.extend_from_slice(before)?;
    script.resize(script.len().saturating_add(count), b'k')?;
    script.push(b'\n')?;
    Ok(())
}
