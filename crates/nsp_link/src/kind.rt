//! Whether the node of some links has queues between NSP and DDCMP.

ghost use Rattle.std.specs.Prelude.{◌≡◌, true, false};
ghost use Rattle.dna_links.specs.declared.queue.Queues.TheVariants.{Without, With};
ghost use Rattle.nsp_link.specs.Kinds.{queues_of};

/// Of the links of a node without queues between NSP and DDCMP: it acts on a message when that comes, and composes one when that is sent.
pub const WITHOUT_QUEUES: u8 = 0;

/// Of the links of a node with queues: it may act on a message later, and compose one earlier.
pub const WITH_QUEUES: u8 = 1;

/// Whether there are queues.
#[inline(always)]
pub fn is_queued<const QUEUES: u8>() -> bool
    ensures yes { result ≡ true → queues_of QUEUES ≡ With }
    ensures no { result ≡ false → queues_of QUEUES ≡ Without }
{
    QUEUES != WITHOUT_QUEUES
}
