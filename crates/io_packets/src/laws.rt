//! Laws of packets and memories, for whoever states something of reads and writes.
ghost use Rattle.io_packets.specs.Laws.{ReadsBack, KeepsWritten, KeepsOthers, KeepsLength};

/// What is read of a packet that was written is what was written, whoever made the packet.
pub fn what_is_written_is_read()
    ensures { ReadsBack }
{}

/// What is read of a memory where bytes were written is these bytes. Elsewhere the memory stays,
/// and it stays as long as it is.
pub fn memory_keeps_what_is_written()
    ensures written { KeepsWritten }
    ensures others { KeepsOthers }
    ensures length { KeepsLength }
{}
