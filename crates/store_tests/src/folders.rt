//! Folders that tests put files into.
use std::fs::{self, File, Files};
use std::process::Abort;
use std::string::String;

/// A new folder of this name, for this process alone.
pub(crate) fn new_folder<R: Files<File = File> + AllocGlobal + Abort>(
    rt: &R,
    id: u32,
    name: &str,
) -> String {
    let folder = format!(in rt.alloc(); "/tmp/store_tests.{name}.{id}").expect(rt, "memory");
    fs::create_dir(rt, folder.as_str()).expect(rt, "a new folder");
    folder
}

/// The path of a file in a folder.
pub(crate) fn path<R: AllocGlobal + Abort>(rt: &R, dir: &str, file: &str) -> String {
    format!(in rt.alloc(); "{dir}/{file}").expect(rt, "memory")
}
