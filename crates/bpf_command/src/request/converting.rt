//! What a command line wants converted.

use bpf_insn::Order;

/// A conversion: of which filter, for which contexts, and where the answers go.
#[derive(Clone, Copy)]
pub struct Converting<'a> {
    /// The name of the filter.
    pub input: &'a str,
    /// The length of the contexts in bytes, at most 4,096.
    pub length: u32,
    /// Where the image goes.
    pub output: &'a str,
    /// Where its certificate goes.
    pub certificate: &'a str,
    /// Contexts are packets; else they are blocks, a packet's length in eight bytes, the packet, and padding.
    pub plain: bool,
    /// The filter is seccomp's, and contexts are `struct seccomp_data`.
    pub seccomp: bool,
    /// Contexts are blocks with sixteen words of Linux's auxiliary data between the length and the packet, which the filter may load.
    pub extensions: bool,
    /// The filter is the bytes of `struct sock_filter`, in the order of the image; else the text of `tcpdump`.
    pub raw: bool,
    /// Where the listing of the filter with its program goes.
    pub listing: Option<&'a str>,
    /// How often a run of the filter may jump back, from 1 to 65,535; the usual number where none is given.
    pub turns: Option<u32>,
    pub order: Order,
}
