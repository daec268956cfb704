ghost use Rattle.std.specs.Prelude.{◌≡◌, [], None, Some};
ghost use Rattle.pungi.specs.FolderShelf.{left_of};

use pungi_io::{Failed, History, OpenFault, OpenedText, Shelf, read_last};
use std::alloc::Global;
use std::fs::File;
use std::io::Read;

/// The files of the system, by their paths. What a file holds is known only as far as it was read. A file is closed at
/// its end.
#[derive(Drop)]
pub struct FolderShelf<'a> {
    files: &'a HostRuntime,
    file: Option<File>,
    opened: Vec<OpenedText>,
    names_opened: History,
    faults: u64,
}

impl<'a> FolderShelf<'a> {
    /// A shelf that opened no file yet, so that nothing is left to read, and where no call failed.
    pub fn new(files: &'a HostRuntime) -> FolderShelf<'a>
        ensures rest { ⟦<FolderShelf<'a> as Shelf>⟧.rest result ≡ Some [] }
        ensures opened { ⟦<FolderShelf<'a> as Shelf>⟧.opened result ≡ [] }
        ensures names_opened { ⟦<FolderShelf<'a> as Shelf>⟧.names_opened result ≡ [] }
        ensures faults { ⟦<FolderShelf<'a> as Shelf>⟧.faults result ≡ 0 }
    {
        FolderShelf {
            files,
            file: None,
            opened: Vec::new(files.alloc()),
            names_opened: History::new(),
            faults: 0,
        }
    }
}

impl Shelf for FolderShelf<'_> {
    ghost texts = { λ _. None };

    ghost rest = { λ s. left_of s.file };

    ghost opened = { λ s. s.opened.items };

    ghost names_opened = { λ s. s.names_opened.pieces };

    ghost faults = { λ s. s.faults };

    fn open(&mut self, _alloc: Global, name: &str) -> Result<(), OpenFault> {
        self.opened.push(OpenedText::new(name))?;
        self.names_opened.add(name.as_bytes());
        match File::open(self.files, name) {
            Ok(file) => {
                self.file = Some(file);
                Ok(())
            }
            Err(_) => {
                self.opened.pop();
                self.faults = self.faults.saturating_add(1);
                Err(OpenFault::Failed)
            }
        }
    }

    fn read(&mut self, buf: &mut [u8]) -> Result<usize, Failed> {
        let Some(file) = &mut self.file else {
            read_last(&mut self.opened, buf, 0);
            return Ok(0);
        };
        match file.read(buf) {
            Ok(count) => {
                read_last(&mut self.opened, buf, count);
                if count == 0 && !buf.is_empty() {
                    self.file = None;
                }
                Ok(count)
            }
            Err(_) => {
                self.faults = self.faults.saturating_add(1);
                Err(Failed)
            }
        }
    }
}
