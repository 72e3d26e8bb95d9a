//! Which contexts a command line gives.

ghost use Rattle.std.specs.Prelude.{◌≡◌};
ghost use Rattle.bpf_command.specs.CommandLine.{name_of};

/// Where the contexts of a run are.
#[derive(Clone, Copy)]
pub enum Contexts<'a> {
    /// One, which a word spells: hexadecimal or `none`.
    Word(&'a str),
    /// One, which the bytes at a name are.
    Bytes(&'a str),
    /// Those that the lines at a name spell.
    Lines(&'a str),
    /// No context is given.
    Nothing,
    /// More than one of these is given.
    Several,
}

impl<'a> Contexts<'a> {
    /// The name at which contexts are read, empty where none is.
    pub fn name(self) -> &'a str
        ensures { result.now ≡ name_of self.entry }
    {
        match self {
            Contexts::Bytes(name) | Contexts::Lines(name) => name,
            Contexts::Word(_) | Contexts::Nothing | Contexts::Several => "",
        }
    }
}
