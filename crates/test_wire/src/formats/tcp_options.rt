//! Options of TCP written one by one. `app_decode` reads them as data.
use crate::cases::all;
use ip_wire::{TcpOption, TcpTimestampGenerator, TcpTimestampRepr};
use net_base::Instant;

#[test]
fn writes_options(rt: HostRuntime) {
    let mut buffer = [0xff; 12];
    let size = TcpOption::MaxSegmentSize(1460).emit(&mut buffer);
    let first = buffer;
    let gap = TcpOption::SackRange([None, Some((5500, 6000)), None]);
    let lengths = (size, gap.buffer_len(), gap.emit(&mut buffer));
    let second = buffer;
    let unknown = TcpOption::Unknown {
        kind: 0xfd,
        bytes: &[1, 2],
    };
    all(
        &rt,
        &[
            lengths == (4, 10, 10),
            unknown.emit(&mut buffer) == 4,
            [first, second, buffer] == OPTIONS,
        ],
    );
}

const OPTIONS: [[u8; 12]; 3] = [
    [
        2, 4, 0x05, 0xb4, 0xff, 0xff, 0xff, 0xff, 0xff, 0xff, 0xff, 0xff,
    ],
    [5, 10, 0, 0, 0x15, 0x7c, 0, 0, 0x17, 0x70, 0xff, 0xff],
    [0xfd, 4, 1, 2, 0x15, 0x7c, 0, 0, 0x17, 0x70, 0xff, 0xff],
];

// The same options, but for those of `writes_options`.
#[test]
fn writes_each_option(rt: HostRuntime) {
    let mut buffer = [0xff; 12];
    let clock = TcpOption::TimeStamp {
        tsval: 0x0102_0304,
        tsecr: 0x0506_0708,
    };
    let (ten, after_ten) = (clock.emit(&mut buffer), buffer);
    let (three, after_three) = (TcpOption::WindowScale(12).emit(&mut buffer), buffer);
    let (two, after_two) = (TcpOption::SackPermitted.emit(&mut buffer), buffer);
    let (one, after_one) = (TcpOption::NoOperation.emit(&mut buffer), buffer);
    let last = TcpOption::EndOfList.emit(&mut buffer);
    all(
        &rt,
        &[
            [ten, three, two, one, last] == [10, 3, 2, 1, 1],
            [after_ten, after_three, after_two, after_one, buffer] == OTHERS,
        ],
    );
}

const OTHERS: [[u8; 12]; 5] = [
    [8, 10, 1, 2, 3, 4, 5, 6, 7, 8, 0xff, 0xff],
    [3, 3, 12, 2, 3, 4, 5, 6, 7, 8, 0xff, 0xff],
    [4, 2, 12, 2, 3, 4, 5, 6, 7, 8, 0xff, 0xff],
    [1, 2, 12, 2, 3, 4, 5, 6, 7, 8, 0xff, 0xff],
    [0, 2, 12, 2, 3, 4, 5, 6, 7, 8, 0xff, 0xff],
];

#[test]
fn answers_timestamps(rt: HostRuntime) {
    let stamp = TcpTimestampRepr { tsval: 7, tsecr: 1 };
    let now = Instant::from_micros(2_999);
    let generator = TcpTimestampGenerator(0xffff_ffff);
    let answer = TcpTimestampRepr { tsval: 1, tsecr: 7 };
    all(
        &rt,
        &[
            generator.value_at(now) == 1,
            stamp.generate_reply(Some(generator), now) == Some(answer),
            stamp.generate_reply(None, now) == None,
        ],
    );
}
