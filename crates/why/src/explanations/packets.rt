//! The explanations of the reasons of packets, and of what names a link.

use crate::explanations::Explanation;
use pair_judge::Reason;

pub const BAD_PACKET: Explanation = Explanation {
    reason: Reason::BadPacket,
    seen: "\
a data message was sent with a packet that no DDCMP circuit carries.",
    rule: "\
a packet that is sent for the first time since a start is a routing
control packet, or a short data packet of at least six bytes. The station's
reasons come first: a packet with a wrong NUM is refused for that.",
    allowed: "\
bit 7 of the first byte clear, and either bit 0 set, which is a
control packet, or the low three bits 010 and at least six bytes.",
    fault: "the sender",
    look_for: "\
- the packet's header left out, or another layer's bytes written as data
- node: padding goes before each packet; packets have the long format; a length
  goes before the packet",
    first: "\
look at the first byte of the packet. If the line carries no DECnet, use
`check --line`.",
    sentence: "A packet is one that a DDCMP circuit carries: a routing control packet, or a short data packet of at least six bytes",
    page: "docs/REASONS.md#15-badpacket",
    table: "docs/PROTOCOL.md#packets-of-a-ddcmp-circuit",
};

pub const WRONG_NODE: Explanation = Explanation {
    reason: Reason::WrongNode,
    seen: "\
a packet of a link was sent or kept whose addresses are not those in the
head.",
    rule: "\
each link packet that is sent goes from the node in the capture's head to
the peer, and each that is kept goes the other way. Routing control packets,
and packets marked as returned, may have any addresses.",
    allowed: "\
any packet between the two.",
    fault: "the sender, or heads that do not pair",
    look_for: "\
- the addresses in the head, especially if every packet of a side is refused,
  or the first one that the other side kept
- area and number put together wrongly (area times 1,024 plus number, low byte
  first)
- node: the area is left out of an address; an address has its high byte first;
  source and destination are exchanged
- node, not a bug: a router passes on a packet of a third node",
    first: "\
compare the addresses in `ddcap why` with both heads. If the line leads
to a router, use `check --line`.",
    sentence: "A packet of a link goes from one to the other of the two nodes that the head of the capture names",
    page: "docs/REASONS.md#16-wrongnode",
    table: "docs/LINKS.md#what-may-be-sent",
};

pub const BAD_NSP: Explanation = Explanation {
    reason: Reason::BadNsp,
    seen: "\
a data packet was sent whose NSP message can't be read.",
    rule: "\
a data packet that is sent for the first time holds a message with a flag
byte of the table of NSP messages in docs/PROTOCOL.md, all its fields, and
nothing after the last one.",
    allowed: "\
any message of that table; any bytes in a packet marked as returned,
which is not read.",
    fault: "the sender",
    look_for: "\
- long packets that are cut
- node: an acknowledgement word lacks bit 15; an acknowledgement word has a
  qualifier above 3; a CI has a DSTADDR; a DC has user data, as a DI may; a
  connect acknowledgement has a SRCADDR; there are three acknowledgement words;
  messages of another protocol are sent",
    first: "\
read the bytes of the message beside that table.",
    sentence: "A data packet holds an NSP message with all its fields and nothing after its end, unless the packet is marked returned",
    page: "docs/REASONS.md#17-badnsp",
    table: "docs/PROTOCOL.md#messages-of-nsp",
};

pub const NO_LINK: Explanation = Explanation {
    reason: Reason::NoLink,
    seen: "\
a message or an event names a link that does not exist.",
    rule: "\
the link must exist. For `u in`, `u close` and `u abort`: a live link
with this local address. For `u up`: a link that was given it, live or not. For
`u accept` and `u reject`: an unanswered call from the other node's address.
For a CI: a live link opened here with SRCADDR. For a connect acknowledgement:
a live link begun by a CI from DSTADDR. For anything else, except DC and no
operation: the live link with local address SRCADDR and far address DSTADDR.",
    allowed: "\
the same, once the link exists.",
    fault: "the sender, or the user",
    look_for: "\
- a missing `u open`, `u accept` or `u reject`
- a `k` line that is missing or written as `r`, so that the CI or CC in it was
  never seen
- a link that existed before the capture began
- a missing `u boot`, where the node started anew
- node: the addresses of a CC are exchanged; the addresses of a segment are
  exchanged; data is sent before the CC has arrived; a connect acknowledgement
  names the sender's own address; data is sent after a DI has arrived; a DI is
  repeated after the DC has arrived; a CI is sent though no user opened a link;
  a repeated CI is shown to the user as a new call
- node, not a bug: a DI waits in a queue until the DC has arrived (see check
  --queued)",
    first: "\
find where the link began, and whether a DI or DC has ended it.",
    sentence: "The link that a message or an event names was begun by u open or by a CI that was kept, and has not ended (u up may come later)",
    page: "docs/REASONS.md#18-nolink",
    table: "docs/LINKS.md#what-may-be-sent",
};

pub const LINK_STATE: Explanation = Explanation {
    reason: Reason::LinkState,
    seen: "\
a message or an event does not fit the phase of its link.",
    rule: "\
a CI needs Calling, a CC Confirming, a DI the phase DI. Segments and all
that goes with them need RUN. `u in` needs Calling, Confirming or RUN, `u
close` Confirming or RUN, and `u abort` Calling. A DC is refused while its link
is live.",
    allowed: "\
the same in one of these phases.",
    fault: "the sender, or the user",
    look_for: "\
- a missing `u close` before a DI
- node: data is sent after the CC without waiting for an answer; a CI is
  repeated after the CC has arrived; a CC is repeated after an answer has
  arrived; a DI is sent though no user closed the link; a DC is sent instead of
  a DI; data is sent after the user closed the link
- node, not a bug: a message waits in a queue while the user closes its link
  (see check --queued)
- node, not a bug: a user gives up a call before it is answered (`u abort` in
  format 3)",
    first: "\
compare the phase in `ddcap why` with what the node did last on this
link.",
    sentence: "A message or an event is allowed only in certain phases of its link: a CI in Calling, a CC in Confirming, a DI in DI, segments in RUN",
    page: "docs/REASONS.md#19-linkstate",
    table: "docs/LINKS.md#what-may-be-sent",
};
