// The files of a worked run: one connection over a pair of routers.
use crate::designs::{ONE, PAIR, PLAN};
use aeth_answers::FileName;
use aeth_io::MemShelf;
use aeth_run_files::RunFiles;
use std::alloc::Global;
use std::test::Fail;

/// What is offered, what the receivers take, and the switches.
#[derive(Clone, Copy)]
pub(crate) struct Texts<'a> {
    pub words: &'a str,
    pub receivers: &'a str,
    pub switches: &'a str,
}

/// A shelf with the files.
pub(crate) fn shelf_of(alloc: Global, texts: &Texts) -> Result<MemShelf, Fail> {
    Ok(MemShelf::new(files_of(alloc, texts)?, Vec::new(alloc)))
}

fn files_of(alloc: Global, texts: &Texts) -> Result<Vec<(String, Vec<u8>)>, Fail> {
    let mut files = Vec::new(alloc);
    for (name, text) in [
        ("pair", PAIR),
        ("one", ONE),
        ("plan", PLAN),
        ("words", texts.words),
        ("receivers", texts.receivers),
        ("switches", texts.switches),
    ] {
        files.push(file_of(alloc, name, text)?)?;
    }
    Ok(files)
}

/// A file, by its name.
fn file_of(alloc: Global, name: &str, text: &str) -> Result<(String, Vec<u8>), Fail> {
    Ok((
        name.to_string(alloc)?,
        Vec::from_slice(alloc, text.as_bytes())?,
    ))
}

/// Their names.
pub(crate) fn names() -> Option<RunFiles<'static>> {
    Some(RunFiles {
        chip: FileName::new("pair")?,
        app: FileName::new("one")?,
        plan: FileName::new("plan")?,
        words: FileName::new("words")?,
        receivers: FileName::new("receivers")?,
        switches: FileName::new("switches")?,
    })
}
