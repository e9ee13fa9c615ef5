//! What is passed to calls, and what they tell, in the layout of C.

/// What a character did.
#[repr(C)]
#[derive(Clone, Copy)]
pub struct CharDid {
    /// The length of the packet that was accepted, 8 to 276 bytes, or 0.
    pub held: u32,
    /// How many packets were freed.
    pub freed: u32,
    /// How many characters are to be sent.
    pub sent: u32,
    /// The characters to be sent, and zeros behind them.
    pub chars: [u16; 4],
}

/// What a run of characters did.
#[repr(C)]
#[derive(Clone, Copy)]
pub struct RunDid {
    /// How many packets were accepted.
    pub held: u32,
    /// How many packets were freed.
    pub freed: u32,
    /// How many characters are to be sent.
    pub sent: u32,
}

/// What clocks did.
#[repr(C)]
#[derive(Clone, Copy)]
pub struct ClocksTold {
    /// How many clocks there were.
    pub clocks: u32,
    /// How many packets were accepted.
    pub held: u32,
    /// How many packets were freed.
    pub freed: u32,
    /// How many time-outs fired by themselves.
    pub fired: u32,
}

/// The fields of a packet.
#[repr(C)]
#[derive(Clone, Copy)]
pub struct PacketHeader {
    /// The priority, 0 to 3.
    pub prio: u8,
    /// The format type, 0 to 15.
    pub ftype: u8,
    /// Whether the IDs have 16 bits, or 8 if it is 0.
    pub large: u8,
    pub source: u16,
    pub dest: u16,
}

/// The state of a port.
#[repr(C)]
#[derive(Clone, Copy)]
pub struct StateTold {
    /// The output half: 0 ok, 1 retry-stopped, 2 error-stopped, 3 failed.
    pub output: u32,
    /// The input half: 0 ok, 1 retry-stopped, 2 error-stopped.
    pub input: u32,
    /// How many packets are outstanding.
    pub outstanding: u32,
    /// 1 if a packet is to be sent that is not outstanding, or 0.
    pub waiting: u32,
}

/// The fields of a control symbol.
#[repr(C)]
#[derive(Clone, Copy)]
pub struct SymbolTold {
    /// 0 to 7.
    pub stype0: u8,
    /// 0 to 31.
    pub parameter0: u8,
    /// 0 to 31.
    pub parameter1: u8,
    /// 0 to 7.
    pub stype1: u8,
    /// 0 to 7.
    pub cmd: u8,
}

/// What characters say.
#[repr(C)]
#[derive(Clone, Copy)]
pub struct EventTold {
    /// The place of the character that completed it, counted from 0.
    pub place: u32,
    /// 1 for a control symbol, 2 for a packet, 3 for what is neither.
    pub kind: u32,
    /// How many bytes the packet has, or 0.
    pub length: u32,
    /// The symbol, or zeros.
    pub symbol: SymbolTold,
    /// The ackID that the packet was sent with, or 0.
    pub ack: u8,
    /// The cause of what is neither, or 0.
    pub cause: u8,
    /// The bytes of the packet with ackID 0, and zeros behind them.
    pub bytes: [u8; 276],
}

/// What a run of characters says.
#[repr(C)]
#[derive(Clone, Copy)]
pub struct ReadingTold {
    /// How many events.
    pub events: u32,
    /// 1 if the run ends within a symbol or a packet, or 0.
    pub cut: u32,
}

/// What the bytes of a packet say.
#[repr(C)]
#[derive(Clone, Copy)]
pub struct PacketTold {
    /// The ackID, 0 to 31.
    pub ack: u8,
    /// The priority, 0 to 3.
    pub prio: u8,
    /// The transport type, 0 to 3: 0 if the IDs have 8 bits, and 1 if they have 16.
    pub tt: u8,
    /// The format type, 0 to 15.
    pub ftype: u8,
    /// The source ID, or 0 if the transport type is 2 or 3.
    pub source: u16,
    /// The destination ID, or 0 if the transport type is 2 or 3.
    pub dest: u16,
}

/// The line that a reason hits.
#[repr(C)]
#[derive(Clone, Copy)]
pub struct HitTold {
    /// The number of the line, counted from 1, or 0.
    pub line: u32,
    /// The number of the least reason that hits it, or 0.
    pub reason: u32,
}

/// A request of a register.
#[repr(C)]
#[derive(Clone, Copy)]
pub struct RegisterAsk {
    /// The priority, 0 to 3.
    pub prio: u8,
    /// The hop count.
    pub hop: u8,
    /// The transaction number.
    pub tid: u8,
    /// Whether the IDs have 16 bits, or 8 if it is 0.
    pub large: u8,
    /// Whether the register is written, or read if it is 0.
    pub write: u8,
    /// The destination ID.
    pub dest: u16,
    /// The offset of the register, of 24 bits.
    pub offset: u32,
    /// The value that is written.
    pub value: u32,
}

/// An access of a node to one of its own registers.
#[repr(C)]
#[derive(Clone, Copy)]
pub struct OwnAccess {
    /// Whether the register is written, or read if it is 0.
    pub write: u8,
    /// The offset of the register, of 24 bits.
    pub offset: u32,
    /// The value that is written.
    pub value: u32,
}

/// What came of a request of a register.
#[repr(C)]
#[derive(Clone, Copy)]
pub struct RegisterReply {
    /// 0 nothing, 1 a value was read, 2 it was written, 3 it is not done, 4 it is unanswered, 5 it
    /// was refused.
    pub kind: u32,
    /// The value that was read, the status of what is not done, the reason of a refusal, or 0.
    pub value: u32,
}
