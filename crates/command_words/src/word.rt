//! The words that a command takes.
use clap::builder::ValueParser;
use clap::{Arg, ArgAction};
use std::alloc::{AllocError, Global};

/// A word that a command takes: its name, the name of its value, what the help says of it, and its kind.
#[derive(Clone, Copy)]
pub(crate) struct Word {
    pub name: &'static str,
    pub value: &'static str,
    pub help: &'static str,
    pub kind: Kind,
}

/// What a word is.
#[derive(Clone, Copy)]
pub(crate) enum Kind {
    /// A word without dashes, and what it has to be.
    Plain(Value),
    /// The same. Where it has to be there, one of some options may be given in its place.
    PlainOr(Value, &'static [&'static str]),
    /// One word without dashes or more, after the others.
    Several,
    /// Any number of words without dashes, after the others.
    Rest,
    /// An option with a value.
    Option(Value),
    /// The same. Where it has to be there, one of some other options may be given in its place.
    OptionOr(Value, &'static [&'static str]),
    /// An option with a value that is not given together with some others.
    OptionNot(Value, &'static [&'static str]),
    /// An option without a value.
    Flag,
    /// The same, where another option has to be given too.
    FlagWith(&'static str),
    /// An option without a value that is not given together with some others.
    FlagNot(&'static [&'static str]),
}

/// What a value has to be.
#[derive(Clone, Copy)]
pub(crate) enum Value {
    Text,
    /// One of some names.
    Name(&'static [&'static str]),
    /// A number from a minimum to a maximum.
    Number(u64, u64),
}

impl Word {
    /// Whether the word has dashes.
    pub(crate) fn is_option(&self) -> bool {
        !matches!(
            self.kind,
            Kind::Plain(_) | Kind::PlainOr(_, _) | Kind::Several | Kind::Rest
        )
    }

    /// What the value of an option has to be, if it has one.
    pub(crate) fn value(&self) -> Option<Value> {
        match self.kind {
            Kind::Option(value) | Kind::OptionOr(value, _) | Kind::OptionNot(value, _) => {
                Some(value)
            }
            Kind::Plain(_)
            | Kind::PlainOr(_, _)
            | Kind::Several
            | Kind::Rest
            | Kind::Flag
            | Kind::FlagWith(_)
            | Kind::FlagNot(_) => None,
        }
    }

    /// Whether a value of the word is a file or a folder.
    pub(crate) fn is_path(&self) -> bool {
        matches!(self.value, "DEV" | "FILE" | "FOLDER")
    }

    /// The word as the parser takes it, which may be left out or not. It can only fail when out of memory.
    pub(crate) fn arg<'a>(self, alloc: Global, required: bool) -> Result<Arg<'a>, AllocError> {
        let arg = Arg::new(alloc, self.name)
            .help(self.help)
            .required(required);
        match self.kind {
            Kind::Plain(value) => Ok(self.single(arg, value)),
            Kind::PlainOr(value, others) => {
                replaceable(self.single(arg, value), others, required)
            }
            Kind::Several => Ok(self.list(arg).num_args(1..)),
            Kind::Rest => Ok(self.list(arg).num_args(0..)),
            Kind::Option(value) => Ok(self.single(arg, value).long(self.name)),
            Kind::OptionOr(value, others) => {
                replaceable(self.single(arg, value).long(self.name), others, required)
            }
            Kind::OptionNot(value, others) => {
                self.single(arg, value)
                    .long(self.name)
                    .conflicts_with_all(others)
            }
            Kind::Flag => Ok(self.flag(arg)),
            Kind::FlagWith(other) => self.flag(arg).requires_arg(other),
            Kind::FlagNot(others) => self.flag(arg).conflicts_with_all(others),
        }
    }

    // With one value.
    fn single<'a>(self, arg: Arg<'a>, value: Value) -> Arg<'a> {
        arg.value_name(self.value)
            .action(ArgAction::Set)
            .value_parser(value.parser())
    }

    // With several values.
    fn list<'a>(self, arg: Arg<'a>) -> Arg<'a> {
        arg.value_name(self.value).action(ArgAction::Append)
    }

    // Without a value.
    fn flag<'a>(self, arg: Arg<'a>) -> Arg<'a> {
        arg.long(self.name).action(ArgAction::SetTrue)
    }
}

// Where it is required, one of some options is enough.
fn replaceable<'a>(
    arg: Arg<'a>,
    others: &[&'static str],
    required: bool,
) -> Result<Arg<'a>, AllocError> {
    let arg = arg.required(false);
    if required {
        arg.required_unless_present_any(others)
    } else {
        Ok(arg)
    }
}

impl Value {
    // How the parser checks it.
    fn parser<'a>(self) -> ValueParser<'a> {
        match self {
            Value::Text => ValueParser::String,
            Value::Name(names) => ValueParser::Names(names),
            Value::Number(least, most) => ValueParser::Unsigned(least, most),
        }
    }
}
