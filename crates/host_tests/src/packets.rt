//! Packets of a read over two switches, with IDs of 8 and of 16 bits, whose bytes and CRCs were
//! made outside this project (the CRCs by Python's `binascii.crc_hqx`), and every form and length
//! of request and response.
use maint_packets::{
    Next, Op, Request, Response, answer, move_on, next_of, read_request, read_response,
    write_request, write_response,
};
use maint_registers::Registers;
use rio_packets::{Header, Packet, build, check};
use std::process::Abort;

/// A read of the features over one switch to a second.
const READ: Request = Request {
    prio: 0,
    dest: 9,
    source: 1,
    large: false,
    op: Op::Read,
    tid: 5,
    hop: 1,
    offset: 0x10,
};

/// The response of the second switch.
const RESPONSE: Response = Response {
    prio: 1,
    dest: 1,
    source: 9,
    large: false,
    write: false,
    status: 0,
    tid: 5,
    hop: 255,
    words: Some((0x1000_0118, 0)),
};

/// The same read from the device 256, and its response.
const LARGE_READ: Request = Request {
    source: 256,
    large: true,
    ..READ
};

const LARGE_RESPONSE: Response = Response {
    dest: 256,
    large: true,
    ..RESPONSE
};

/// The packet of the read, and what that becomes at the first switch.
const READ_BYTES: [u8; 12] = [0, 8, 9, 1, 8, 5, 1, 0, 0, 0x10, 0x63, 0x3e];

const READ_MOVED: [u8; 12] = [0, 8, 9, 1, 8, 5, 0, 0, 0, 0x10, 0x15, 0x8a];

const LARGE_READ_BYTES: [u8; 16] = [0, 0x18, 0, 9, 1, 0, 8, 5, 1, 0, 0, 0x10, 0xbc, 0xd5, 0, 0];

const LARGE_READ_MOVED: [u8; 16] = [0, 0x18, 0, 9, 1, 0, 8, 5, 0, 0, 0, 0x10, 0xca, 0x61, 0, 0];

/// The packet of the response, and what that becomes at the first switch.
const RESPONSE_BYTES: [u8; 20] = [
    0, 0x48, 1, 9, 0x20, 5, 0xff, 0, 0, 0, 0x10, 0, 1, 0x18, 0, 0, 0, 0, 5, 0xb2,
];

const RESPONSE_MOVED: [u8; 20] = [
    0, 0x48, 1, 9, 0x20, 5, 0xfe, 0, 0, 0, 0x10, 0, 1, 0x18, 0, 0, 0, 0, 6, 0xc7,
];

const LARGE_RESPONSE_BYTES: [u8; 24] = [
    0, 0x58, 1, 0, 0, 9, 0x20, 5, 0xff, 0, 0, 0, 0x10, 0, 1, 0x18, 0, 0, 0, 0, 0x70, 0xb7, 0, 0,
];

const LARGE_RESPONSE_MOVED: [u8; 24] = [
    0, 0x58, 1, 0, 0, 9, 0x20, 5, 0xfe, 0, 0, 0, 0x10, 0, 1, 0x18, 0, 0, 0, 0, 0x73, 0xc2, 0, 0,
];

/// The responses where the offset 000011 was read with TID 6.
const ERROR_BYTES: [u8; 12] = [0, 0x48, 1, 9, 0x27, 6, 0xff, 0, 0, 0, 0x80, 0x6f];

const LARGE_ERROR_BYTES: [u8; 16] = [0, 0x58, 1, 0, 0, 9, 0x27, 6, 0xff, 0, 0, 0, 8, 0x79, 0, 0];

/// The packet of these bytes.
fn packet(rt: &impl Abort, bytes: &[u8]) -> Packet {
    match check(bytes) {
        Ok((_, packet)) => packet,
        Err(_) => panic!(rt; "no packet"),
    }
}

/// A maintenance packet of format type 8 with this behind its IDs.
fn with_rest(rt: &impl Abort, large: bool, rest: &[u8]) -> Packet {
    let header = Header {
        prio: 0,
        ftype: 8,
        dest: 9,
        source: 1,
        large,
    };
    match build(&header, rest) {
        Ok(packet) => packet,
        Err(_) => panic!(rt; "no packet"),
    }
}

/// What such a packet asks for.
fn request_of(rt: &impl Abort, large: bool, rest: &[u8]) -> Option<Request> {
    read_request(&with_rest(rt, large, rest))
}

/// What a packet becomes at a switch that sends it to a port.
fn moved(rt: &impl Abort, registers: &Registers, bytes: &[u8], port: u8) -> Packet {
    let mut packet = packet(rt, bytes);
    let next = next_of(registers, &packet);
    assert_eq!(rt; next, Next::Port(port));
    if let Next::Port(_) = next {
        move_on(&mut packet);
    }
    packet
}

/// The first of the two switches, which the device 1 or 256 is linked to by port 0.
fn first_switch() -> Registers {
    let mut first = Registers::switch(2, 3);
    first.set_route(9, 1);
    first.set_route(1, 0);
    first.set_route(256, 0);
    first
}

/// A read is built as these bytes, becomes the next ones, and is answered at the second switch.
fn is_asked(rt: &impl Abort, request: &Request, sent: &[u8], came: &[u8], response: &Response) {
    let mut second = Registers::switch(2, 1);
    assert_eq!(rt; moved(rt, &first_switch(), sent, 1).bytes(), came);
    assert_eq!(rt; read_request(&packet(rt, sent)), Some(*request));
    let asked = packet(rt, came);
    assert_eq!(rt; next_of(&second, &asked), Next::RegisterUnit);
    let arrived = Request { hop: 0, ..*request };
    assert_eq!(rt; read_request(&asked), Some(arrived));
    assert_eq!(rt; answer(&mut second, &arrived, 0), *response);
}

#[test]
fn a_read_goes_over_one_switch_and_is_answered_at_the_second(rt: HostRuntime) {
    assert_eq!(rt; write_request(&READ).bytes(), READ_BYTES.as_slice());
    assert_eq!(rt;
        write_request(&LARGE_READ).bytes(),
        LARGE_READ_BYTES.as_slice()
    );
    is_asked(&rt, &READ, &READ_BYTES, &READ_MOVED, &RESPONSE);
    is_asked(
        &rt,
        &LARGE_READ,
        &LARGE_READ_BYTES,
        &LARGE_READ_MOVED,
        &LARGE_RESPONSE,
    );
}

/// A response is read of these bytes, which become the next ones.
fn is_returned(rt: &impl Abort, response: &Response, sent: &[u8], came: &[u8]) {
    assert_eq!(rt; read_response(&packet(rt, sent)), Some(*response));
    assert_eq!(rt; moved(rt, &first_switch(), sent, 0).bytes(), came);
}

#[test]
fn a_response_goes_back_over_the_first_switch(rt: HostRuntime) {
    assert_eq!(rt;
        write_response(&RESPONSE).bytes(),
        RESPONSE_BYTES.as_slice()
    );
    assert_eq!(rt;
        write_response(&LARGE_RESPONSE).bytes(),
        LARGE_RESPONSE_BYTES.as_slice()
    );
    is_returned(&rt, &RESPONSE, &RESPONSE_BYTES, &RESPONSE_MOVED);
    is_returned(
        &rt,
        &LARGE_RESPONSE,
        &LARGE_RESPONSE_BYTES,
        &LARGE_RESPONSE_MOVED,
    );
}

/// The response to a read of an offset without a register is read of these bytes.
fn is_refused(rt: &impl Abort, read: &Request, bytes: &[u8]) {
    let mut registers = Registers::switch(2, 1);
    let request = Request {
        tid: 6,
        hop: 0,
        offset: 0x11,
        ..*read
    };
    let response = answer(&mut registers, &request, 0);
    assert_eq!(rt; response.status, 7);
    assert_eq!(rt; response.words, None);
    assert_eq!(rt; read_response(&packet(rt, bytes)), Some(response));
}

#[test]
fn an_offset_without_a_register_is_answered_by_an_error(rt: HostRuntime) {
    is_refused(&rt, &READ, &ERROR_BYTES);
    is_refused(&rt, &LARGE_READ, &LARGE_ERROR_BYTES);
}

/// What stands behind the IDs of a request to write, of which each byte is altered.
const WRITE_REST: [u8; 14] = [0x18, 5, 1, 0, 0, 0x6c, 1, 2, 3, 4, 5, 6, 7, 8];

/// The request to write that has this behind its IDs.
const WRITE: Request = Request {
    op: Op::Write { value: 0x0506_0708 },
    offset: 0x6c,
    ..READ
};

/// The same with another offset.
fn to_offset(offset: u32) -> Request {
    Request { offset, ..WRITE }
}

/// The same for something else.
fn asking(op: Op) -> Request {
    Request { op, ..WRITE }
}

/// What is asked where the lowest bit of each byte in turn is the other one.
fn altered() -> [Request; 14] {
    [
        asking(Op::BadWrite),
        Request { tid: 4, ..WRITE },
        Request { hop: 0, ..WRITE },
        to_offset(0x01_006c),
        to_offset(0x00_016c),
        to_offset(0x6d),
        WRITE,
        WRITE,
        WRITE,
        WRITE,
        asking(Op::Write { value: 0x0406_0708 }),
        asking(Op::Write { value: 0x0507_0708 }),
        asking(Op::Write { value: 0x0506_0608 }),
        asking(Op::Write { value: 0x0506_0709 }),
    ]
}

/// Each byte behind IDs of this size is read for itself.
fn each_byte_is_read(rt: &impl Abort, large: bool) {
    for (place, request) in altered().iter().enumerate() {
        let mut rest = WRITE_REST;
        if let Some(byte) = rest.get_mut(place) {
            *byte ^= 1;
        }
        let request = Request { large, ..*request };
        assert_eq!(rt; request_of(rt, large, &rest), Some(request), "{place}");
    }
}

#[test]
fn each_byte_behind_the_ids_has_its_meaning(rt: HostRuntime) {
    each_byte_is_read(&rt, false);
    each_byte_is_read(&rt, true);
    let mut rest = WRITE_REST;
    rest[5] = 0x68;
    let lower = asking(Op::Write { value: 0x0102_0304 });
    let request = Request {
        offset: 0x68,
        ..lower
    };
    assert_eq!(rt; request_of(&rt, false, &rest), Some(request));
    let request = Request {
        large: true,
        ..request
    };
    assert_eq!(rt; request_of(&rt, true, &rest), Some(request));
}

/// What a packet asks for whose first byte behind the IDs is this, of so many bytes of which the
/// others are 0.
fn op_of(rt: &impl Abort, large: bool, first: u8, length: usize) -> Option<Op> {
    let mut rest = [0; 74];
    rest[0] = first;
    request_of(rt, large, rest.get(..length).unwrap_or(&rest)).map(|request| request.op)
}

#[test]
fn each_form_of_request_is_named(rt: HostRuntime) {
    for (first, length, op) in [
        (0x08, 6, Some(Op::Read)),
        (0x0b, 6, Some(Op::BadRead)),
        (0x08, 14, Some(Op::BadRead)),
        (0x18, 14, Some(Op::Write { value: 0 })),
        (0x1b, 14, Some(Op::BadWrite)),
        (0x18, 6, Some(Op::BadWrite)),
        (0x18, 22, Some(Op::BadWrite)),
        (0x18, 10, None),
        (0x20, 14, None),
        (0x30, 6, None),
        (0x48, 6, None),
    ] {
        assert_eq!(rt; op_of(&rt, false, first, length), op, "{first:x}");
        assert_eq!(rt; op_of(&rt, true, first, length), op, "{first:x}");
    }
}

/// With 8-bit IDs a pad fills two bytes less up to the same length. With 16-bit IDs the pad itself
/// is there.
#[test]
fn each_length_is_known(rt: HostRuntime) {
    for half in 1..37 {
        let length: usize = 2 * half;
        let fills = length % 8 == 6 && length < 72;
        let is_padded = length % 8 == 4 && length < 72;
        let small = op_of(&rt, false, 0x0b, length);
        let large = op_of(&rt, true, 0x0b, length);
        assert_eq!(rt; small.is_some(), fills || is_padded, "{length}");
        assert_eq!(rt; large.is_some(), fills, "{length}");
    }
}

#[test]
fn each_form_of_response_is_read(rt: HostRuntime) {
    for (first, length, is_read) in [
        (0x20, 14, true),
        (0x20, 6, false),
        (0x27, 6, true),
        (0x27, 14, false),
        (0x21, 14, false),
        (0x30, 6, true),
        (0x37, 6, true),
        (0x30, 14, false),
        (0x31, 6, false),
        (0x08, 6, false),
    ] {
        let mut rest = [0; 14];
        rest[0] = first;
        let rest = rest.get(..length).unwrap_or(&rest);
        let small = read_response(&with_rest(&rt, false, rest));
        let large = read_response(&with_rest(&rt, true, rest));
        assert_eq!(rt; small.is_some(), is_read, "{first:x}");
        assert_eq!(rt; large.is_some(), is_read, "{first:x}");
    }
}

#[test]
fn other_types_and_lengths_go_nowhere(rt: HostRuntime) {
    let mut registers = Registers::switch(4, 15);
    registers.set_route(9, 2);
    registers.set_default(3);
    for (bytes, next) in [
        ([0, 0xf, 9, 1, 1, 2, 0xbc, 0xdd], Next::Port(2)),
        ([0, 0x1f, 0, 9, 0, 1, 0xe1, 3], Next::Port(2)),
        ([0, 0x1f, 9, 1, 1, 2, 0xb8, 0x87], Next::Port(3)),
        ([0, 0x2f, 9, 1, 1, 2, 0xb4, 0x69], Next::Nowhere),
        ([0, 0x3f, 9, 1, 1, 2, 0xb0, 0x33], Next::Nowhere),
        ([0, 8, 9, 1, 8, 5, 0x11, 0x76], Next::Nowhere),
        ([0, 0x18, 0, 9, 0, 1, 0x86, 0xd7], Next::Nowhere),
    ] {
        assert_eq!(rt; next_of(&registers, &packet(&rt, &bytes)), next);
    }
}

#[test]
fn a_response_at_the_end_of_its_hops_goes_nowhere(rt: HostRuntime) {
    let mut registers = Registers::switch(4, 15);
    registers.set_default(3);
    let small = [0, 0x48, 9, 1, 0x27, 5, 0, 0, 0, 0, 0xa8, 0x69];
    let large = [0, 0x58, 0, 9, 0, 1, 0x27, 5, 0, 0, 0, 0, 0x93, 0x3c, 0, 0];
    assert_eq!(rt; next_of(&registers, &packet(&rt, &small)), Next::Nowhere);
    assert_eq!(rt; next_of(&registers, &packet(&rt, &large)), Next::Nowhere);
}
