//! Laws of whole runs of a script of reads and writes.
ghost use Rattle.io_law.specs.Asks.{AsksAreOfTheirLines};
ghost use Rattle.io_law.specs.Laws.{
  DonesAnswerRequests,
  MemoriesAreTold,
  OutputIsTold,
  PacketsComeAsTaken,
  PacketsComeInTurn,
  PacketsHaveOneLine,
  ReadsAreTold,
  RepliesAnswerServed,
  RequestsWereAsked,
  ResponsesWereReplied,
};

/// In every run of a script that may be carried out, if a read is told, the lines told before it
/// leave a memory at its node, and its bytes are those that stand there.
pub fn reads_are_of_lines_told()
    ensures { ReadsAreTold }
{}

/// In every run of a script that may be carried out, each node has the memory that the lines told
/// so far leave there, or none if they leave none.
pub fn memories_are_as_told()
    ensures { MemoriesAreTold }
{}

/// What is written in a run is the text of the lines that it told, in order.
pub fn output_is_what_was_told()
    ensures { OutputIsTold }
{}

/// In every run of a script that may be carried out, each line that says that a node asked or that
/// a packet came is of one packet, and no two lines of a kind are of the same one. So what a node
/// asked with gives at most one line when it comes.
pub fn packets_have_one_line()
    ensures { PacketsHaveOneLine }
{}

/// In every run of a script that may be carried out, the packets that came to nodes, as the lines
/// tell it, were taken by the network before. Each is as it was taken, if it is no maintenance
/// packet: so is each read, write and response.
pub fn packets_come_as_taken()
    ensures { PacketsComeAsTaken }
{}

/// In every run of a script that may be carried out, each response that came is a packet with which
/// a node replied, and no two replies are of one packet. So each `done` line is of a reply, and no
/// reply gives two.
pub fn responses_were_replied()
    ensures { ResponsesWereReplied }
{}

/// In every run of a script that may be carried out, each packet that came and is no response is
/// one with which a node asked. So each line of a read, a write or a failure is of such a packet.
pub fn requests_were_asked()
    ensures { RequestsWereAsked }
{}

/// In every run of a script that may be carried out, of two packets with which one node asked one
/// device the one that was asked with first comes first; and so it is of two packets that one node
/// replied to one device at one priority. If the later one has come, so has the earlier one.
pub fn packets_come_in_turn()
    ensures { PacketsComeInTurn }
{}

/// In every run of a script that may be carried out, each node replies to what it serves, in order
/// and to each packet once: its first reply is that to the first packet that it serves, and so on.
/// At most the last packet that it has served is without a reply yet, if it is next to be sent or
/// has no room.
pub fn replies_answer_what_was_served()
    ensures { RepliesAnswerServed }
{}

/// In every run of a script that may be carried out, each `done` line is of the reply to a packet
/// that a node served, whose line was told before: the reply goes back to the source of that
/// packet, comes as it was sent, and says what the node answered by its memory then. No two `done`
/// lines are of one reply, so no two are of one packet that was served.
pub fn done_lines_answer_requests()
    ensures { DonesAnswerRequests }
{}

/// In every run of a script that may be carried out, the lines begun are the first of the script,
/// in order. The k-th line that says that a node asked is of the k-th of their requests that had
/// room: it names the node and the number of that request, and the k-th packet that nodes asked
/// with is that request. The numbered requests of a node count from 0 on, modulo 256.
pub fn asks_are_of_their_lines()
    ensures { AsksAreOfTheirLines }
{}
