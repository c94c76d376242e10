//! The system on which a command runs.
use std::alloc::{Allocator, Global};
use std::cell::RefCell;
use std::fmt::Display;
use std::fs::{File, Metadata, OpenOptions};
use std::io::{self, ErrorKind, Lines, Write};
use std::rt::{Clock, Files};
use std::time::{CpuClock, Duration};

/// What standard input gives.
pub type Stdin = <HostRuntime as Input>::Reader;

/// The system on which a command runs: its files, its clock and its standard streams. What is printed on both streams
/// may be kept in one text instead.
#[derive(Drop)]
pub struct System {
    rt: HostRuntime,
    kept: Option<RefCell<Vec<u8>>>,
}

impl System {
    /// The system as it is.
    pub fn new(rt: HostRuntime) -> System {
        System { rt, kept: None }
    }

    /// The system, of which what is printed is kept.
    pub fn kept(rt: HostRuntime) -> System {
        let kept = Some(RefCell::new(Vec::new(rt.alloc())));
        System { rt, kept }
    }

    /// The host, whose streams keep nothing.
    pub fn host(&self) -> &HostRuntime {
        &self.rt
    }

    /// What was printed since the last call, where it is kept.
    pub fn take_text(&self) -> Vec<u8> {
        let none = Vec::new(self.rt.alloc());
        match &self.kept {
            Some(kept) => match kept.try_replace(none) {
                Ok(text) => text,
                Err(_) => Vec::new(self.rt.alloc()), // it is never borrowed between two calls
            },
            None => none,
        }
    }

    fn keep<D: Display + Drop>(kept: &RefCell<Vec<u8>>, value: D, end: &str) -> io::Result<()> {
        match kept.try_borrow_mut() {
            Ok(mut text) => write!(text, "{value}{end}"),
            Err(_) => Err(io::Error::from(ErrorKind::Other)),
        }
    }
}

impl Alloc for System {
    type A = Global;

    fn alloc(&self) -> Global {
        self.rt.alloc()
    }
}

impl Print for System {
    fn print<D: Display + Drop>(&self, value: D) -> io::Result<()> {
        match &self.kept {
            Some(kept) => System::keep(kept, value, ""),
            None => self.rt.print(value),
        }
    }

    fn println<D: Display + Drop>(&self, value: D) -> io::Result<()> {
        match &self.kept {
            Some(kept) => System::keep(kept, value, "\n"),
            None => self.rt.println(value),
        }
    }

    fn write_all(&self, bytes: &[u8]) -> io::Result<()> {
        let Some(kept) = &self.kept else {
            return self.rt.write_all(bytes);
        };
        match kept.try_borrow_mut() {
            Ok(mut text) => text.write_all(bytes),
            Err(_) => Err(io::Error::from(ErrorKind::Other)),
        }
    }
}

impl Eprint for System {
    fn eprint<D: Display + Drop>(&self, value: D) -> io::Result<()> {
        match &self.kept {
            Some(kept) => System::keep(kept, value, ""),
            None => self.rt.eprint(value),
        }
    }

    fn eprintln<D: Display + Drop>(&self, value: D) -> io::Result<()> {
        match &self.kept {
            Some(kept) => System::keep(kept, value, "\n"),
            None => self.rt.eprintln(value),
        }
    }
}

impl Clock for System {
    fn monotonic(&self) -> io::Result<Duration> {
        self.rt.monotonic()
    }

    fn since_1970(&self) -> io::Result<Duration> {
        self.rt.since_1970()
    }
}

impl CpuClock for System {
    fn thread_cpu_time(&self) -> io::Result<Duration> {
        self.rt.thread_cpu_time()
    }

    fn process_cpu_time(&self) -> io::Result<Duration> {
        self.rt.process_cpu_time()
    }
}

impl Input for System {
    type Reader = Stdin;

    fn read_line<A: Allocator + Clone>(&self, buf: &mut String<A>) -> io::Result<usize> {
        self.rt.read_line(buf)
    }

    fn lines<A: Allocator>(&self, alloc: A) -> Lines<Stdin, A> {
        self.rt.lines(alloc)
    }

    fn reader(&self) -> Stdin {
        self.rt.reader()
    }
}

impl Files for System {
    type File = File;

    type Dir = <HostRuntime as Files>::Dir;

    fn open_file(&self, how: &OpenOptions, path: &str) -> io::Result<File> {
        self.rt.open_file(how, path)
    }

    fn open_dir(&self, path: &str) -> io::Result<<HostRuntime as Files>::Dir> {
        self.rt.open_dir(path)
    }

    fn metadata(&self, path: &str) -> io::Result<Metadata> {
        self.rt.metadata(path)
    }

    fn symlink_metadata(&self, path: &str) -> io::Result<Metadata> {
        self.rt.symlink_metadata(path)
    }

    fn copy(&self, from: &str, to: &str) -> io::Result<u64> {
        self.rt.copy(from, to)
    }

    fn rename(&self, from: &str, to: &str) -> io::Result<()> {
        self.rt.rename(from, to)
    }

    fn remove_file(&self, path: &str) -> io::Result<()> {
        self.rt.remove_file(path)
    }

    fn create_dir(&self, path: &str) -> io::Result<()> {
        self.rt.create_dir(path)
    }

    fn remove_dir(&self, path: &str) -> io::Result<()> {
        self.rt.remove_dir(path)
    }

    fn remove_dir_all<B: Allocator>(&self, alloc: B, path: &str) -> io::Result<()> {
        self.rt.remove_dir_all(alloc, path)
    }
}
