//! The pages of the words that judge captures. Lines have at most 79 columns.

pub const CHECK: &str = "\
ddcap check A B

Judges two captures of one DDCMP line, recorded at the same time: A is the file
of one end, B that of the other. Each has what its end sent and received.

Example, in the top folder of the sources:

  ./ddcap check examples/crossed_period.a examples/crossed_period.b

It ends with status 1 and prints:

  refused b 6 line 8: 13 CrossedPeriod

Record 6 of b, on line 8, breaks a rule, for reason 13. Side a is the first
file, b the second; records are counted from 0. Then: ./ddcap explain 13

For a pair without a fault it prints accepted, and a line of counts per side.

With --line, before or after the files, only DDCMP is judged: a packet may be
any bytes and is not read, and events of links are not judged. Use it if the
line joins routers, or carries something other than DECnet. A capture may then
be a part of a run, of a line that ran when the recording began.

With --queued the nodes may have queues between NSP and DDCMP, as most real
nodes have: docs/LINKS.md says what differs. Without it a link has to act at
once. It can't be combined with --line.

With --all it does not end at the first refusal. It leaves out the link of the
refused record, with all that share an address with it, and judges the rest:
one line for each refusal, at most 50, and then else and the last answer, or
and more.

With --json each answer is one JSON object; docs/KEYS.md has its keys.

More pairs may follow, as A B C D: each is answered in turn, with the name of
its first file before the answer, and the status is the greatest.

Status:
  0  accepted: some order of all records obeys the protocols
  1  refused: no such order exists
  2  a faulty line, as a: line 3: syntax (or too long, too many)
  3  a: cannot open, a: read failed, out of memory, or a failed write
";

pub const ALONE: &str = "\
ddcap alone A

Judges the capture of one end without that of the other: what was received is
taken as what the other end sent. Begin with it if you can record only one end.

Example, in the top folder of the sources:

  ./ddcap alone examples/wrong_response.a

It ends with status 1 and prints:

  refused a 3 line 5: 8 WrongResponse

Whatever the other end's capture is, it can't go with this one: record 3, on
line 5, breaks a rule. If ' by the other end' follows, no correct end can have
sent what was received there. Then: ./ddcap explain 8

passed, and a line of counts: this end broke no rule, as far as one end shows.

A recorder that counts no units writes r 0 BYTES and k 0 BYTES in format 2.
With --line only DDCMP is judged, of a part of a run too, with --queued a node
with queues between NSP and DDCMP, and with --all all refusals are listed, as
ddcap help check says.

With --json the answer is one JSON object; docs/KEYS.md has its keys.

Status:
  0  passed
  1  refused
  2  a faulty line, as a: line 3: syntax (or too long, too many)
  3  a: cannot open: PATH, a: read failed, out of memory, or a failed write
";

pub const WHY: &str = "\
ddcap why A [B]

Judges two captures as check does. If a record is refused, it says what was
seen there, what was allowed, by which rule, and how both ends were before it.
With A alone it judges that end as alone does, and shows only this end.

Example, in the top folder of the sources:

  ./ddcap why examples/wrong_response.a examples/wrong_response.b

It ends with status 1 and prints a text that begins:

  refused a 3 line 5: 8 WrongResponse

The first line is that of check. Then come the record, layer by layer; what was
seen and allowed, the rule and its pages; both stations and their links as they
were before it; the last ten rows, a on the left and b on the right; who is
accused; what is answered with queues, without the link, and of the line alone;
and whether a small change of a recording would make the pair acceptable. If
so, the recording is more likely at fault than a node, unless one wrong unit of
the node would explain it as well. This is no proof. A node that may be right
if it has a queue between NSP and DDCMP is accused only under that condition,
and one whose recording begins in the middle of a running line is not.

With --json, before or after the files, each of these is an object on a line of
its own. For a pair that is not refused, the answer is that of check.

docs/KEYS.md has the keys of these objects. With --line only DDCMP is judged,
and with --queued nodes with queues between NSP and DDCMP, as by check; then
each link also says how far it has come. With --full all bytes of the record
are printed, and not only the first 64. With --all each refusal is explained
that check --all finds.

At a faulty line it says on standard error what is there, at which column, and
what would be correct.

Status:
  0  accepted, passed
  1  refused
  2  a faulty line, as a: line 3: syntax (or too long, too many)
  3  a: cannot open: PATH, a: read failed, out of memory, or a failed write
";

pub const COVER: &str = "\
ddcap cover A B

Judges a pair as check does, and counts which of the 88 rows of the rules each
side went through. A pair that goes through few of them says little.

Example, in the top folder of the sources:

  ./ddcap cover examples/first_start_lost.a examples/first_start_lost.b

It ends with status 0 and prints:

  accepted
  a went through 4 of 88 rows
  b went through 4 of 88 rows
  row                                     a      b
  HALTED user start                       1      1
  ISTRT sends STRT                        2      .
  ASTRT sends STACK                       .      1
  RUNNING sends ACK                       1      .
  ISTRT gets STRT                         .      1
  ISTRT gets STACK                        1      .
  ASTRT gets ACK RESP 0                   .      1

Each accepted record counts once for its station, by the state before it, and
once more for the links if it is one of theirs. A dot is a count of 0; rows
that neither side went through are left out. More pairs may follow, as A B A B:
then there is a first line for each, and counts add up; a fault is followed by
a line that says which pair it was.

With --missing the rows that neither side went through are listed instead, each
with steps of a script that meet it; short names are explained at the end.

With --line only DDCMP is judged, and rows of links are not counted. With
--queued nodes with queues are judged, as by check. With --json the answer is
one JSON object, with all 88 rows; docs/KEYS.md has its keys.

Status:
  0  accepted
  1  refused: what came before the refused record is counted
  2  a faulty line, as a: line 3: syntax (or too long, too many)
  3  a: cannot open: PATH, a: read failed, out of memory, or a failed write
";

/// The page of `draw`.
pub const DRAW: &str = "\
ddcap draw A B

Draws two captures of one line, a on the left and b on the right: a row for a
record, or for the sending and the arrival of a unit. For a refused pair these
are the 40 rows up to the refused record, for any other pair the first 40.

Example, in the top folder of the sources:

  ./ddcap draw examples/first_start_lost.a examples/first_start_lost.b

It ends with status 0 and prints:

       2          start |                                  |
       3                |------------- STRT --------------x|
                        |                                  | start          2
       4                |---------- again STRT ----------->|                3
       5                |<------------- STACK -------------|                4
       6                |------------ ACK /0 ------------->|                5

An arrow ends with > or < if the unit arrives in this row, with . if it arrives
in another one, and with x if it never arrives. ~ comes before what arrived
damaged or with other bytes, and .. after words that are cut.

With --from a:9 the rows begin with the record on line 9 of A (b:9: of B).
With --rows 80 there are up to 80 of them; 200 is the most. With --svg FILE
they are drawn into FILE, which is created, or emptied first: a picture for any
browser. With --line only DDCMP is judged, with --queued nodes with queues, as
by check. With --all it goes on after refusals as check does, and marks each.
These options go before or after A and B.

Status:
  0  accepted, and drawn
  1  refused, and drawn
  2  a faulty line, as a: line 3: syntax (or too long, too many)
  3  a: cannot open: PATH (b: or svg:), svg: same file as a, a: read failed,
     out of memory, or a failed write
";
