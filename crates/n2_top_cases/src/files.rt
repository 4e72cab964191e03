//! The files of the cases.

ghost use Rattle.n2_elf.specs.Writing.{IsWritable};

use n2_asm::{AsmFault, assemble, put_fault};
use n2_cases::{NoAnswer, bytes_in, put};
use n2_elf::Image;
use n2_outside::MemFolder;
use n2_word::NoMemory;
use std::alloc::Global;

/// Files with their names.
#[derive(Drop)]
pub struct Files {
    files: Vec<(String, Vec<u8>)>,
}

impl Files {
    /// No files.
    pub fn new(alloc: Global) -> Files {
        Files {
            files: Vec::new(alloc),
        }
    }

    /// A file with these bytes.
    pub fn put(&mut self, alloc: Global, name: &str, bytes: Vec<u8>) -> Result<(), NoMemory> {
        self.files.retain(|file| file.0.as_str() != name);
        Ok(self.files.push((string(alloc, name)?, bytes))?)
    }

    /// `NAME TEXT`: a file with this text.
    pub fn put_text(&mut self, alloc: Global, rest: &str) -> Result<(), NoAnswer> {
        let (name, text) = rest.split_once(' ').ok_or(NoAnswer::NoCase)?;
        let bytes = bytes_in(alloc, text)?;
        Ok(self.put(alloc, name, bytes)?)
    }

    /// `NAME TEXT`: a file with the image of a source, or the first fault of the source.
    pub fn put_image(
        &mut self,
        alloc: Global,
        rest: &str,
        out: &mut Vec<u8>,
    ) -> Result<(), NoAnswer> {
        let (name, text) = rest.split_once(' ').ok_or(NoAnswer::NoCase)?;
        match assemble(alloc, &bytes_in(alloc, text)?) {
            Ok(object) => {
                let file = written(alloc, &object.image)?;
                Ok(self.put(alloc, name, file)?)
            }
            Err(AsmFault::Row { row, kind }) => {
                put_fault(out, row, kind)?;
                put(out, "\n")
            }
            Err(AsmFault::NoMemory) => Err(NoAnswer::NoMemory),
        }
    }

    /// A folder of all files, whose fetches with these numbers fail.
    pub fn folder(&self, alloc: Global, failing: Vec<u64>) -> Result<MemFolder, NoMemory> {
        let mut files = Vec::new(alloc);
        for (name, bytes) in self.files.iter() {
            files.push((
                string(alloc, name.as_str())?,
                bytes.as_slice().to_vec(alloc)?,
            ))?;
        }
        Ok(MemFolder::new(files, failing))
    }
}

/// A text as a string of its own.
pub fn string(alloc: Global, text: &str) -> Result<String, NoMemory> {
    let mut string = String::new(alloc);
    string.push_str(text)?;
    Ok(string)
}

fn written(alloc: Global, image: &Image) -> Result<Vec<u8>, NoAnswer>
    requires { IsWritable image.now }
{
    match image.write(alloc) {
        Ok(file) => Ok(file),
        Err(_) => Err(NoAnswer::NoMemory),
    }
}
