//! Command lines of each kind: what they read, write and report, and how they end.
use crate::tests::wanted::Wanted;
use Wanted::{Page, Part, Text};

pub const NOTHING: Wanted = Text("");

/// A command line, its input, what the output and the errors have to hold, and the status.
pub type Case = (&'static str, &'static [u8], Wanted, Wanted, u8);

const GOOD: &[u8] = b"disk 8 4\nwrite 0 3 1 aa\n";

/// The entries 0 to 3: an issue, an acceptance, a completion and a collection.
const STORY: &[u8] = b"disk 8 4\nwrite 0 3 1 aa\naccept 0\nserve 0\ncollect 0 0\n";

/// A read of 17 sectors, whose data are 8,704 bytes and take two Data FISes, and a write of one, served in this order.
const TOGETHER: &[u8] = b"disk 40 2\nwrite 0 20 1 aa\nread 1 0 17\naccept 1\naccept 0\nserve 1 0\n";

const DATA_FISES: &str = "
  received DMA Setup FIS 41 20 00 00 01 00 00 00 00 00 00 00 00 00 00 00 00 00 00 00 00 22 00 00 00 00 00 00
  received Data FIS 46 00 00 00, 8192 bytes
  received Data FIS 46 00 00 00, 512 bytes
  received DMA Setup FIS 41 00 00 00 00 00 00 00 00 00 00 00 00 00 00 00 00 00 00 00 00 02 00 00 00 00 00 00
  received DMA Activate FIS 39 00 00 00
  sent Data FIS 46 00 00 00, 512 bytes
  received Set Device Bits FIS a1 40 40 00 03 00 00 00
";

const TRANSFERS: &str =
    "\"transfers\":[{\"tag\":1,\"write\":false,\"dma_setup\":\"41200000010000000000000000000000000000000022000000000000\",\"data\":[8192,512]},{\"tag\":0,\"write\":true,\"dma_setup\":\"41000000000000000000000000000000000000000002000000000000\",\"data\":[512]}],\"received\":{\"dma_setup\":\"41000000000000000000000000000000000000000002000000000000\",\"set_device_bits\":\"a140400003000000\"}";

/// A read that passes the last sector, and the way back from its failure.
const RECOVERY: &[u8] = b"disk 8 4\nread 2 8 1\naccept 2\nrecover\n";

const STEPS: &str = "recovered 2
  entry 2: recover 2
  wrote PxCMD 00000010
  wrote PxSERR ffffffff
  wrote PxIS ffffffff
  wrote PxCMD 00000011
  wrote PxCI 00000001
  sent command header 05 00 01 00 ";

const WRITES: &str =
    "\"writes\":[{\"name\":\"PxSACT\",\"word\":\"00000004\"},{\"name\":\"PxCI\",\"word\":\"00000004\"}],\"sent\":{";

const BAD: &[u8] = b"disk 8 4\nnonsense\njournal\n";

const JOBS: &[u8] = b"write 0 2 11\nread 9 1\n";

const BAD_LINE: Wanted = Text("ahci: line 2: not understood\n");

/// A write, a read, and a read past the last of two sectors.
const THREE_JOBS: &[u8] = b"write 0 1 11\nread 0 1\nread 2 1\n";

/// Of one worker and one slot: the write has the entries 0 to 3, the read 4 to 7, and the third 8 to 11, where it fails as it is
/// accepted and the port recovers.
const OBJECTS: &str = "{\"job\":0,\"worker\":0,\"number\":0,\"entry\":2,\"answer\":\"wrote\"}
{\"job\":1,\"worker\":0,\"number\":4,\"entry\":6,\"answer\":\"read 11\"}
{\"job\":2,\"worker\":0,\"number\":8,\"entry\":9,\"answer\":\"failed 10 2\"}
{\"sector\":0,\"answer\":\"sector 0 11\"}
";

const SCRIPT: &str = "disk 2 1
write 0 0 1 11
accept 0
serve 0
collect 0 0
read 0 0 1
accept 0
serve 0
collect 0 4
read 0 2 1
accept 0
recover
collect 0 8
";

pub static CASES: [Case; 40] = [
    (
        "ahci replay",
        GOOD,
        Text("disk 8 4\nissued 0\n"),
        NOTHING,
        0,
    ),
    ("ahci replay --", b"", NOTHING, NOTHING, 0),
    ("ahci replay", BAD, Text("disk 8 4\n"), BAD_LINE, 1),
    (
        "ahci trace",
        GOOD,
        Part("  sent CFIS 27 80 61 "),
        NOTHING,
        0,
    ),
    ("ahci trace", BAD, Part("disk 8 4\n"), BAD_LINE, 1),
    (
        "ahci trace",
        b"disk 8 4\nwrite 0 0 1 aa\naccept 0\nfail 0 a1 0\n",
        Part("  PxTFD 0000a141  ERR, DRDY, error bit 0, error bit 5, error ICRC\n"),
        NOTHING,
        0,
    ),
    (
        "ahci trace --json",
        GOOD,
        Part("{\"line\":2,\"command\":\"write 0 3 1 aa\",\"answer\":\"issued 0\""),
        NOTHING,
        0,
    ),
    (
        "ahci trace --json",
        BAD,
        Part("\n{\"fault\":\"not understood\",\"line\":2}\n"),
        BAD_LINE,
        1,
    ),
    ("ahci trace", TOGETHER, Part(DATA_FISES), NOTHING, 0),
    ("ahci trace --json", TOGETHER, Part(TRANSFERS), NOTHING, 0),
    ("ahci trace", RECOVERY, Part(STEPS), NOTHING, 0),
    ("ahci trace --json", RECOVERY, Part(WRITES), NOTHING, 0),
    ("ahci check", GOOD, NOTHING, NOTHING, 0),
    ("ahci check", BAD, Part("line 2, column 1: "), NOTHING, 1),
    (
        "ahci check --json",
        BAD,
        Part("{\"line\":2,\"column\":1,"),
        NOTHING,
        1,
    ),
    ("ahci check --jobs", JOBS, NOTHING, NOTHING, 0),
    (
        "ahci check --jobs",
        GOOD,
        Text("line 1, column 1: no such command\nline 2, column 11: not two hexadecimal digits\n"),
        NOTHING,
        1,
    ),
    ("ahci draw", GOOD, Part("<svg "), NOTHING, 0),
    ("ahci draw", BAD, Part("<svg "), BAD_LINE, 1),
    (
        "ahci draw --from 1 --to 2",
        STORY,
        Part("entries: 2, tags: 1"),
        NOTHING,
        0,
    ),
    (
        "ahci draw --from 3",
        STORY,
        Part("<text x='78' y='35'><title>3: collect, tag 0"),
        NOTHING,
        0,
    ),
    (
        "ahci draw --from 4",
        STORY,
        Part("entries: 0, tags: 0"),
        NOTHING,
        0,
    ),
    (
        "ahci run --workers 2 --depth 1 --sectors 8",
        JOBS,
        Text("wrote\nfailed 10 9\nsector 0 11\nsector 1 11\n"),
        NOTHING,
        0,
    ),
    (
        "ahci run --workers 1 --depth 2 --sectors 9 --pick high",
        b"read 9 1\nwrite 8 1 22",
        Text("failed 10 9\nwrote\nsector 8 22\n"),
        NOTHING,
        0,
    ),
    (
        "ahci run --workers 1 --depth 1 --sectors 8 --pick all",
        b"# no job\nwrite 0 0 11\n",
        NOTHING,
        Text("ahci: job 0: bad count or address\n"),
        1,
    ),
    (
        "ahci run --workers 1 --depth 1 --sectors 8",
        BAD,
        NOTHING,
        Text("ahci: line 1: not understood\n"),
        1,
    ),
    (
        "ahci run --workers 1 --depth 1 --sectors 2 --json",
        THREE_JOBS,
        Text(OBJECTS),
        NOTHING,
        0,
    ),
    (
        "ahci run --workers 1 --depth 1 --sectors 2 --journal",
        THREE_JOBS,
        Text(SCRIPT),
        NOTHING,
        0,
    ),
    (
        "ahci run --workers 1 --depth 1 --sectors 1 --image",
        b"write 0 1 11\n",
        Page(&[0x11; 512]),
        NOTHING,
        0,
    ),
    (
        "ahci run --workers 1 --depth 1 --sectors 1 --image --json",
        THREE_JOBS,
        NOTHING,
        Part("one at most can be given"),
        2,
    ),
    (
        "ahci identify --sectors 1000 --depth 32",
        BAD,
        Part("word 075  001f  "),
        NOTHING,
        0,
    ),
    (
        "ahci identify --sectors 1000 --depth 32 --raw",
        b"",
        Page(&[0, 0, 0, 0]),
        NOTHING,
        0,
    ),
    (
        "ahci log --tag 3 --error 40 --lba 7",
        b"",
        Part("byte 003  40  "),
        NOTHING,
        0,
    ),
    (
        "ahci log --tag 3 --error 40 --lba 7 --raw",
        b"",
        Page(&[3, 0, 0x41, 0x40, 7, 0]),
        NOTHING,
        0,
    ),
    ("ahci", GOOD, NOTHING, Part("requires a subcommand"), 2),
    (
        "ahci runs",
        GOOD,
        NOTHING,
        Part("unrecognized subcommand 'runs'"),
        2,
    ),
    (
        "ahci runs",
        GOOD,
        NOTHING,
        Part("\n\nFor more information, try '--help'.\n"),
        2,
    ),
    ("ahci run --workers 33", GOOD, NOTHING, Part("33"), 2),
    (
        "ahci log --tag 3 --error 4 --lba 7",
        b"",
        NOTHING,
        Part("--error"),
        2,
    ),
    ("ahci --version", GOOD, Text("ahci 1.1.0\n"), NOTHING, 0),
];

/// Lines that get help, whatever the input is, and a part of it.
pub static HELPS: [(&str, &[u8], &str); 9] = [
    ("ahci --help", GOOD, "judges a script's lines"),
    ("ahci replay --help", BAD, "| ahci replay"),
    ("ahci trace --help", BAD, "| ahci trace --json"),
    ("ahci check --help", BAD, "| ahci check"),
    ("ahci draw --help", BAD, "| ahci draw > picture.svg"),
    ("ahci run --help", BAD, "--pick high < jobs.txt"),
    (
        "ahci identify --help",
        BAD,
        "ahci identify --sectors 1000 --depth 32 --raw |",
    ),
    (
        "ahci log --help",
        BAD,
        "ahci log --tag 3 --error 40 --lba 7 --raw |",
    ),
    ("ahci log -h", BAD, "Usage: ahci log"),
];
