//! Names of functions of C (C11, 6.4.2.1).

ghost use Rattle.std.specs.Prelude.{◌≡◌};
ghost use Rattle.bpf_c.specs.Names.{is_letter, is_later, is_name, is_taken, all_later};

/// The greatest length of a name. With `_takes` behind it, it has the 31 characters of an external name that count everywhere (C11, 5.2.4.1).
pub const MAX_NAME: usize = 25;

/// Words that name no function: the keywords of C11 (6.4.1) and of C23 that begin with a letter, and the function at which a program starts.
pub const TAKEN: [&str; 46] = [
    "alignas",
    "alignof",
    "auto",
    "bool",
    "break",
    "case",
    "char",
    "const",
    "constexpr",
    "continue",
    "default",
    "do",
    "double",
    "else",
    "enum",
    "extern",
    "false",
    "float",
    "for",
    "goto",
    "if",
    "inline",
    "int",
    "long",
    "main",
    "nullptr",
    "register",
    "restrict",
    "return",
    "short",
    "signed",
    "sizeof",
    "static",
    "static_assert",
    "struct",
    "switch",
    "thread_local",
    "true",
    "typedef",
    "typeof",
    "typeof_unqual",
    "union",
    "unsigned",
    "void",
    "volatile",
    "while",
];

fn is_letter(byte: u8) -> bool
    ensures { result ≡ is_letter byte }
{
    (b'A' <= byte && byte <= b'Z') || (b'a' <= byte && byte <= b'z')
}

/// A letter, a digit or `_`.
fn is_later(byte: u8) -> bool
    ensures { result ≡ is_later byte }
{
    is_letter(byte) || (b'0' <= byte && byte <= b'9') || byte == b'_'
}

/// Whether all can stand behind the first character of a name.
fn all_later(bytes: &[u8]) -> bool
    ensures { result ≡ all_later bytes.now }
{
    bytes.iter().all(|byte| is_later(*byte))
}

fn is_taken(name: &str) -> bool
    ensures { result ≡ is_taken name.now }
{
    TAKEN.contains(&name)
}

/// Whether a function can have this name: a letter, and up to 24 letters, digits and `_`, but no keyword of C, and not `main`. C keeps names that
/// begin with `_` for itself. Names that the text or C's library has aren't looked for.
pub fn is_name(name: &str) -> bool
    ensures { result ≡ is_name name.now }
{
    match name.as_bytes().split_first() {
        Some((first, more)) => {
            is_letter(*first) && all_later(more) && more.len() < MAX_NAME && !is_taken(name)
        }
        None => false,
    }
}
