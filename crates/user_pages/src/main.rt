//! Runs the commands of each page of its folder as they are printed there, and says where one prints other than the
//! page. After a page the files that it made are removed.
#![tactic(auto)]

mod making;
mod page;
mod quoting;
mod shell;

use command_line::System;
use page::{Step, steps};
use shell::Shell;
use std::alloc::Global;
use std::process::ExitCode;
use std::{fs, io};

fn main(rt: HostRuntime) -> io::Result<ExitCode> {
    let system = System::kept(rt);
    let files = files(system.host())?;
    let mut all_alike = true;
    for name in files.as_slice() {
        if name.ends_with(".md") {
            all_alike &= is_alike(&system, name.as_str())?;
            remove_others(system.host(), files.as_slice())?;
        }
    }
    Ok(if all_alike {
        ExitCode::SUCCESS
    } else {
        ExitCode::FAILURE
    })
}

// The names of the files in the folder, in order: the pages, and the tables that they name.
fn files(rt: &HostRuntime) -> io::Result<Vec<String>> {
    let alloc = rt.alloc();
    let mut names = Vec::new(alloc);
    for entry in fs::read_dir(rt, ".")? {
        let entry = entry?;
        push_name(alloc, &mut names, entry.file_name())?;
    }
    names.sort()?;
    Ok(names)
}

fn push_name(alloc: Global, names: &mut Vec<String>, name: &str) -> io::Result<()> {
    names.push(String::from_str(alloc, name)?)?;
    Ok(())
}

// Removes the files that are not among some names: those that a page made, so that the next one finds the folder as it
// was.
fn remove_others(rt: &HostRuntime, names: &[String]) -> io::Result<()> {
    let found = files(rt)?;
    for name in found.as_slice() {
        if !names.contains(name) {
            fs::remove_file(rt, name.as_str())?;
        }
    }
    Ok(())
}

// Runs the commands of a page, and prints how many there are and how many of them print other than the page. It says
// whether there are some, and each prints what the page says.
fn is_alike(system: &System, page: &str) -> io::Result<bool> {
    let text = fs::read_to_string(system, page)?;
    let steps = steps(system.alloc(), text.as_str())?;
    let others = count_others(system, steps.as_slice())?;
    println!(system.host();
        "{page}: {} commands, {others} that print other than the page",
        steps.len()
    )?;
    Ok(others == 0 && !steps.is_empty())
}

// Runs commands in one shell, and says how many print other than their page.
fn count_others(system: &System, steps: &[Step<'_>]) -> io::Result<u64> {
    let mut shell = Shell::new();
    let mut others = 0u64;
    for step in steps {
        if !is_as_printed(system, &mut shell, step)? {
            others = others.saturating_add(1);
        }
    }
    Ok(others)
}

// Whether a command prints what its page says. Where not, it prints both.
fn is_as_printed(system: &System, shell: &mut Shell, step: &Step<'_>) -> io::Result<bool> {
    let found = shell.run(system, step.command)?;
    let is_same = found.as_slice() == step.printed.as_bytes();
    if !is_same {
        print_both(system.host(), step, found.as_slice())?;
    }
    Ok(is_same)
}

// Prints a command, what its page says that it prints, and what it prints.
fn print_both(rt: &HostRuntime, step: &Step<'_>, found: &[u8]) -> io::Result<()> {
    println!(rt; "$ {}", step.command)?;
    print!(rt; "{}instead of this it prints\n", step.printed)?;
    rt.write_all(found)
}
