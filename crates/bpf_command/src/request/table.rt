//! The table of the commands, with the texts of their help.

use crate::request::argument::Argument::{
    self, Extra, Flag, Length, Named, Number, Otherwise, Place, Steps, Trace, Word,
};
use bpf_insn::{FRAME_BYTES, MAX_CONTEXT, MAX_SLOTS};

/// A command: its name, what help says of it, and its arguments.
pub struct Entry {
    pub name: &'static str,
    pub about: &'static str,
    pub arguments: &'static [Argument],
}

/// How often a run of a filter may jump back at most: a program counts it in 16 bits.
pub const MAX_TURNS: u32 = 65_535;

const BIG: Argument = Flag("big", "the image is of big-endian BPF");

const IMAGE: Argument = Place("IN", "an image");

const CERTIFICATE: Argument = Place("CERT", "a certificate");

const HEX: Argument = Extra("HEX", "the context in hexadecimal, or `none`");

const CONTEXT: Argument = Named(
    "context",
    "in place of HEX: the bytes of FILE are the context",
);

const CONTEXTS: Argument = Named(
    "contexts",
    "in place of HEX: contexts as HEX, one a line of FILE",
);

const PACKETS: Argument = Named(
    "packets",
    "in place of HEX: the packets of the capture FILE (pcap), each in a block as for `harden --padded`",
);

const COUNTS: Argument = Flag(
    "counts",
    "with --packets: prints each different result once, and how often it came",
);

const NOTED: Argument = Named(
    "notes",
    "the notes of IN: says where a run ends at a trap; not with --packets",
);

const LENGTH: Argument = Length("the length of the contexts in bytes, at most 4096");

/// The greatest length of the contexts of a certificate.
const MOST: Argument = Number(
    "most",
    "M",
    0,
    MAX_CONTEXT as i64,
    "the greatest length of the contexts in bytes, else LEN",
);

const OTHERWISE: Argument = Otherwise("the number with which a trap ends the program, else 0");

const PADDED: Argument = Flag(
    "padded",
    "contexts are blocks: a packet's length in 8 bytes, the packet, padding up to LEN",
);

const NOTES: Argument = Named("notes", "the notes that `follows` reads go to FILE");

const BESIDE: Argument = Named(
    "certificate",
    "the certificate beside which the notes stand goes to FILE",
);

const CHANGES: Argument = Named(
    "changes",
    "what was done goes to FILE, a line for each change",
);

const LINES: Argument = Named(
    "lines",
    "the lines of the source by slots, as bpf-cc writes them",
);

/// The commands that take no certificate.
pub const FIRST: [Entry; 4] = [
    Entry {
        name: "groups",
        about: "Prints the conformance groups of which an instruction occurs",
        arguments: &[IMAGE, BIG],
    },
    Entry {
        name: "asm",
        about: "Assembles a text to an image",
        arguments: &[
            Place("IN", "a text of the assembly language"),
            Place("OUT", "where the image goes"),
            BIG,
        ],
    },
    Entry {
        name: "list",
        about: "Prints the instructions of an image, one a line",
        arguments: &[
            IMAGE,
            Flag("slots", "tells each instruction's slot in a comment"),
            Flag("bytes", "tells each instruction's bytes in a comment"),
            BIG,
        ],
    },
    Entry {
        name: "run",
        about: "Runs an image on contexts, and prints how each run ends",
        arguments: &[
            IMAGE,
            HEX,
            CONTEXT,
            CONTEXTS,
            Steps("the most instructions that are done"),
            Trace("the last steps of each run on standard error, at most N lines, else 1000"),
            NOTED,
            BIG,
        ],
    },
];

/// The commands that judge, run and propose.
pub const SECOND: [Entry; 4] = [
    Entry {
        name: "check",
        about: "Judges whether a certificate certifies an image",
        arguments: &[
            IMAGE,
            CERTIFICATE,
            Flag("work", "prints the work of judging as well"),
            BIG,
        ],
    },
    Entry {
        name: "run-checked",
        about: "Runs an image that its certificate certifies, and prints each result",
        arguments: &[
            IMAGE,
            CERTIFICATE,
            HEX,
            CONTEXT,
            CONTEXTS,
            PACKETS,
            COUNTS,
            NOTED,
            BIG,
        ],
    },
    Entry {
        name: "infer",
        about: "Proposes a certificate for an image",
        arguments: &[
            IMAGE,
            Length("the least length of the contexts in bytes, at most 4096"),
            Place("OUT", "where the certificate goes"),
            MOST,
            Flag("deep", "searches longer, and finds more certificates"),
            BIG,
        ],
    },
    Entry {
        name: "harden",
        about: "Rewrites an image so that a certificate is found for it",
        arguments: &[
            IMAGE,
            LENGTH,
            Place("OUT", "where the hardened image goes"),
            Number(
                "turns",
                "N",
                1,
                u32::MAX as i64,
                "how often a loop that gets a counter may turn in one call of its function, else 65536",
            ),
            Number(
                "untouched",
                "M",
                0,
                FRAME_BYTES as i64,
                "how many of the lowest bytes of each frame a run of IN accesses by r10 alone, else as few as can be shown",
            ),
            OTHERWISE,
            PADDED,
            Flag(
                "unproved",
                "writes an image of which `follows` doesn't say yes, too",
            ),
            NOTES,
            BESIDE,
            CHANGES,
            BIG,
        ],
    },
];

/// The others.
pub const LAST: [Entry; 6] = [
    Entry {
        name: "certify",
        about: "Writes an image and its certificate within a bound, hardened where it needs to be",
        arguments: &[
            IMAGE,
            LENGTH,
            Place("OUT", "where the image goes"),
            Place("CERT", "where its certificate goes"),
            Number(
                "bound",
                "B",
                1,
                u32::MAX as i64,
                "how many instructions a run may take at most, else 1000000",
            ),
            Number(
                "turns",
                "N",
                1,
                u32::MAX as i64,
                "how often a loop that gets a counter may turn in one call of its function, else the most within B",
            ),
            OTHERWISE,
            PADDED,
            Flag(
                "unproved",
                "writes a hardened image that isn't shown to keep the meaning, too",
            ),
            NOTES,
            CHANGES,
            LINES,
            BIG,
        ],
    },
    Entry {
        name: "convert",
        about: "Converts a filter of tcpdump, libpcap or seccomp to an image with its certificate",
        arguments: &[
            Place(
                "IN",
                "a filter of classic BPF, as tcpdump -ddd or -dd prints it",
            ),
            Length("the length of the contexts in bytes, at most 4096; 64 with --seccomp"),
            Place("OUT", "where the image goes"),
            Place("CERT", "where its certificate goes"),
            Flag(
                "plain",
                "contexts are packets of LEN bytes, else blocks: a packet's length in 8 bytes, the packet, padding up to LEN",
            ),
            Flag(
                "seccomp",
                "IN is a filter of seccomp, and contexts are struct seccomp_data",
            ),
            Flag(
                "extensions",
                "IN may load Linux's auxiliary data, and blocks have its 16 words of 4 bytes between the length and the packet",
            ),
            Flag(
                "raw",
                "IN is struct sock_filter, 8 bytes for each instruction",
            ),
            Named(
                "listing",
                "a listing goes to FILE: each instruction of IN, and the slots that stand for it",
            ),
            Number(
                "turns",
                "N",
                1,
                MAX_TURNS as i64,
                "how often a run may jump back in IN, at most 65535, else once for each 8 bytes of a packet",
            ),
            BIG,
        ],
    },
    Entry {
        name: "to-c",
        about: "Writes a program that its certificate certifies as a function of C11",
        arguments: &[
            IMAGE,
            CERTIFICATE,
            Place("OUT", "where the text goes"),
            Word(
                "name",
                "F",
                "the name of the function, a letter and up to 24 letters, digits and `_`, else `filter`",
            ),
            BIG,
        ],
    },
    Entry {
        name: "follows",
        about: "Judges whether notes show that one image keeps the meaning of another",
        arguments: &[
            Place("OLD", "the image whose meaning is kept"),
            Place("NEW", "the image that keeps it"),
            Place(
                "NOTES",
                "what stands in NEW for what in OLD, and for which contexts and runs",
            ),
            Place("CERT", "the certificate of NEW beside which NOTES stand"),
            BIG,
        ],
    },
    Entry {
        name: "migrate",
        about: "Writes a certificate in the newest version",
        arguments: &[CERTIFICATE, Place("OUT", "where the certificate goes")],
    },
    Entry {
        name: "explain",
        about: "Tells in words what the checker sees, or why an input is refused",
        arguments: &[
            IMAGE,
            Extra("CERT", "a certificate"),
            Number(
                "slot",
                "S",
                0,
                MAX_SLOTS as i64 - 1,
                "one instruction alone, with the whole state before and behind it",
            ),
            Number(
                "infer",
                "LEN",
                0,
                MAX_CONTEXT as i64,
                "in place of CERT: what `infer` finds for contexts of at least LEN bytes",
            ),
            MOST,
            Flag(
                "deep",
                "with --infer: searches longer, and finds more certificates",
            ),
            Number(
                "harden",
                "LEN",
                0,
                MAX_CONTEXT as i64,
                "in place of CERT: what `harden` makes for contexts of LEN bytes, or why it refuses",
            ),
            Flag(
                "padded",
                "with --harden: contexts are blocks, as for `harden`",
            ),
            Flag("text", "IN is a text of the assembly language"),
            Flag("dot", "the control-flow graph as DOT text"),
            LINES,
            BIG,
        ],
    },
];
