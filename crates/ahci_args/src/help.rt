//! What help says.

/// What help says of a subcommand: in a list of them, at the head of its own help, its usage, and at its end.
pub(crate) struct Help {
    pub(crate) about: &'static str,
    pub(crate) long_about: &'static str,
    pub(crate) usage: &'static str,
    pub(crate) after_help: &'static str,
}

pub(crate) const VERSION: &str = "1.1.0";

pub(crate) const ABOUT: &str = "A reference model of one AHCI port with native command queueing.
It answers a script of commands one by one, tells or draws what each did, judges a script's lines,
lets many workers do a list of jobs, or shows what the disk's pages hold.";

pub(crate) const EXAMPLES: &str = "Examples:
  printf 'disk 8 4\\nwrite 0 3 1 aa\\njournal\\n' | ahci replay
  printf 'write 0 2 11\\nread 1 1\\n' | ahci run --workers 2 --depth 2 --sectors 8
  ahci identify --sectors 1000 --depth 32
  ahci log --tag 3 --error 40 --lba 7";

pub(crate) static REPLAY: Help = Help {
    about: "Read a script on standard input, and answer it on standard output",
    long_about: "Read a script on standard input, and answer it on standard output.
Each line is one command, and each command has one line as its answer.",
    usage: "ahci replay < SCRIPT",
    after_help: "Commands of a script:
  disk S D         a disk of S sectors of zeros, and D slots: the first command
  disk S D F       the same, where the journal's first entry has the number F
  write T LBA N BB issue a write of N sectors of the byte BB with tag T
  read T LBA N     issue a read of N sectors with tag T
  raw T H B        issue the window of tag T with the header H and the bytes B
  accept T         the device takes the command of tag T
  serve T T ..     the device moves the data of 1 to 32 tags, and completes them by one FIS
  fail T EE LBA    the device fails the command of tag T at a sector, with error EE
  collect T K      take the answer of the request with number K
  recover          end an error, and hold all commands that it has stopped
  reissue T        issue the held command of tag T again
  identify W       word W of the disk's identify page
  flush            flush the disk's cache
  reg OFF          the register at the offset OFF
  ack MASK         clear the bits of MASK in PxIS
  show LBA         a sector of the disk, by its first byte
  journal          how many entries the journal has
  trim             hand the journal out while every slot is free: numbers go on

S, D, F, T, LBA, N, K and W are decimal numbers. BB and EE are two hexadecimal digits,
OFF and MASK one to eight, H 64, and B two for each byte. An empty line, and a line that
begins with #, is skipped.
A command that the port refuses changes nothing: its answer is 'refused' and a name,
and the script goes on. Where a line is not understood, 'ahci check' tells its column and why.
A script in a file is given by the shell, '< script.ahci': the program opens no files.

Exit status:
  0  the input ended
  1  a line was not understood or stood where it may not, or input or output failed
  2  the command line was wrong
  3  the system gave no memory

Example:
  printf 'disk 8 4\\nwrite 0 3 1 aa\\naccept 0\\nserve 0\\ncollect 0 0\\n' | ahci replay",
};

pub(crate) static TRACE: Help = Help {
    about: "Read a script on standard input, and tell what each command did to the port",
    long_about: "Read a script on standard input, as replay does, and answer it on standard output.
After each answer stands, in lines that are indented by two spaces, what the command did to the
port: the journal's new entries, what was written to registers, the bytes that were sent and
received, registers that changed, and the slots that are owned.",
    usage: "ahci trace [OPTIONS] < SCRIPT",
    after_help: "Lines after an answer:
  entry E: ..            a new entry of the journal, which has the number E
  wrote NAME WORD        a register that software wrote to issue or send a command, or to recover
  sent command header .. the 32 bytes of the header of a command that was issued
  sent CFIS ..           the 20 bytes of its Register FIS, from the host to the device
  sent PRDT entry ..     the 16 bytes of each entry of its PRDT
  sent Data FIS ..       the first dword of the FIS that carried data, and how many bytes of data
  received NAME FIS ..   a FIS that came, byte by byte; of a Data FIS what is told of one sent
  NAME WORD  BIT, ..     a register that has changed, in hexadecimal, and its bits that are 1
  slot T PHASE           each slot that is owned: issued, accepted, rejected, broken, held or done

The commands of a script, its faults and the statuses are those of replay.

Examples:
  printf 'disk 8 4\\nwrite 0 3 1 aa\\naccept 0\\nserve 0\\n' | ahci trace
  printf 'disk 8 4\\nwrite 0 3 1 aa\\naccept 0\\nserve 0\\n' | ahci trace --json",
};

pub(crate) const JSON_HELP: &str = "Write one JSON object a line, for tools, in place of the text";

pub(crate) static CHECK: Help = Help {
    about: "Read a script on standard input, and tell which of its lines are faulty",
    long_about: "Read a script on standard input, and judge it line by line. Nothing is run.
Each line at which replay would end, and each one that every port with so many sectors and slots
refuses, is told by its number, the column and what is wrong: one line on standard output, before
more of the input is read.",
    usage: "ahci check [OPTIONS] < LINES",
    after_help: "A column counts bytes from 1. Each line is told once at most: by the first word that is wrong, from
the left. From the first good 'disk S D' on it is known how many sectors and slots there are. What
a port refuses by what it has done before, as a tag that is not free, is not told.

Exit status:
  0  no line is faulty
  1  some line is faulty
  2  the command line was wrong
  3  the system gave no memory
  4  input or output failed

Examples:
  printf 'write 0 3 1 aa\\ndisk 8 40\\n' | ahci check
  printf 'write 0 0 11\\n' | ahci check --jobs --json",
};

pub(crate) const JOBS_HELP: &str = "Judge a list of jobs, as run takes it, and not a script";

pub(crate) const CHECK_JSON_HELP: &str =
    "Write one JSON object for each faulty line, for tools, in place of the text";

pub(crate) static DRAW: Help = Help {
    about: "Read a script on standard input, and draw what the port did, as SVG",
    long_about: "Read a script on standard input, run it as replay does, and draw the port's journal as SVG on
standard output: entries from left to right, in rows of a hundred, with a lane for each tag that is
used. A bar is a phase of the tag, a letter what an entry did to it: R and W issued, N issued
again, A accepted, C completed, X failed, V recovered, E collected. Lines across all lanes are
failures and recoveries; below them stands how many tags the device has. A pointer on a letter
shows the entry in words.",
    usage: "ahci draw [OPTIONS] < SCRIPT",
    after_help: "The commands of a script, its faults and the statuses are those of replay. At a fault the picture
shows what was done before it.

Examples:
  printf 'disk 8 4\\nwrite 0 3 1 aa\\naccept 0\\nserve 0\\n' | ahci draw > picture.svg
  ahci draw --from 1000 --to 1199 < script.ahci > part.svg",
};

pub(crate) const FROM_HELP: &str = "The number of the first entry that is drawn, where not all are";

pub(crate) const TO_HELP: &str = "The number of the last entry that is drawn";

pub(crate) static RUN: Help = Help {
    about: "Read jobs on standard input, let workers do them, and write their answers on standard output",
    long_about: "Read jobs on standard input, let workers do them, and write their answers on standard output.
The workers are threads over one port, whose disk begins with zeros. Each does its jobs one by
one: of W workers, number K does the jobs K, K + W, K + 2W and so on.",
    usage: "ahci run [OPTIONS] --workers <NUMBER> --depth <NUMBER> --sectors <NUMBER> < JOBS",
    after_help: "The options --workers, --depth and --sectors have no default. Each option is given once, and of
--json, --journal and --image one at most.

Jobs, one a line, numbered from 0:
  write LBA N BB   write N sectors of the byte BB, from the sector LBA on
  read LBA N       read N sectors, from the sector LBA on

LBA and N are decimal numbers, N from 0 to 131072; a job may have 1 to 65536 sectors, and
an LBA below 2^48. BB is two hexadecimal digits. An empty line, and a line that begins with #,
is skipped and is no job. Nothing is written before all jobs are read and done.

Written then, unless another form is asked for, a line for each job in the order of the jobs:
  wrote            the sectors are written
  read BB ..       the first byte of each sector that was read
  failed EE LBA    the disk failed the job with the error EE, at a sector that it lacks
and after them, rising:
  sector LBA BB    a sector that is not all zero, by its first byte

Exit status:
  0  every job is answered, also where some failed
  1  a line was not understood, a job had a bad count or address, input or output failed,
     or the answers are not those of the port's journal
  2  the command line was wrong
  3  the system gave no memory

Examples:
  printf 'write 0 2 11\\nread 1 1\\n' | ahci run --workers 2 --depth 2 --sectors 8
  ahci run --workers 8 --depth 32 --sectors 131072 --pick high < jobs.txt
  ahci run --workers 8 --depth 32 --sectors 1000 --journal < jobs.txt | ahci draw > run.svg",
};

pub(crate) const WORKERS_HELP: &str = "How many workers do the jobs, each a thread: 1 to 32";

pub(crate) const DEPTH_HELP: &str = "How many slots the port has, each for one command: 1 to 32";

pub(crate) const SECTORS_HELP: &str = "How many sectors of 512 bytes the disk has: 1 to 131072";

pub(crate) const PICK_HELP: &str =
    "The tag whose command the device goes on with: the lowest, the highest, or all at once";

pub(crate) const RUN_JSON_HELP: &str =
    "Write one JSON object a line, for tools: each job with its worker, number, entry and answer";

pub(crate) const JOURNAL_HELP: &str =
    "Write the port's journal as a script, which replay, trace and draw take";

pub(crate) const IMAGE_HELP: &str = "Write the disk's bytes at the end, as they are";

pub(crate) static IDENTIFY: Help = Help {
    about: "Write the page that IDENTIFY DEVICE reads of a disk, as text or as it is",
    long_about: "Write the page that IDENTIFY DEVICE reads of a disk, as text or as it is.
It is the page that the disk of a script with so many sectors and slots has.",
    usage: "ahci identify [OPTIONS] --sectors <NUMBER> --depth <NUMBER>",
    after_help: "The options --sectors and --depth have no default. Each option is given once.

The text:
  serial number, firmware revision and model number, each in quotes
  word WWW  VVVV  NAME   a word that is not 0: its number in decimal, its value in four
                         hexadecimal digits, and what the standard (ACS-3) calls it
  all other words are 0000

With --raw the 512 bytes are written as they are: 256 words, each with its low byte first.

Exit status:
  0  the page is written
  1  output failed
  2  the command line was wrong
  3  the system gave no memory

Examples:
  ahci identify --sectors 1000 --depth 32
  ahci identify --sectors 1000 --depth 32 --raw | od -An -v -tx2 --endian=little",
};

pub(crate) const IDENTIFY_DEPTH_HELP: &str =
    "How many commands the disk queues, each with a tag: 1 to 32";

pub(crate) const RAW_HELP: &str = "Write the 512 bytes of the page, and not its text";

pub(crate) static LOG: Help = Help {
    about: "Write page 0 of log 10h after an error, as text or as it is",
    long_about: "Write page 0 of log 10h after an error, as text or as it is.
It is the NCQ Command Error log that a recovery reads: which command failed, how and where.",
    usage: "ahci log [OPTIONS] --tag <NUMBER> --error <EE> --lba <NUMBER>",
    after_help: "The options --tag, --error and --lba have no default. Each option is given once.

The text:
  NQ, UNL and NCQ TAG, the parts of byte 0, and the LBA, in decimal
  byte NNN  VV  NAME     a byte of a field: its number in decimal, its value in two
                         hexadecimal digits, and what the standard (ACS-3) calls it
  all other bytes are 00

With --raw the 512 bytes are written as they are.

Exit status:
  0  the page is written
  1  output failed
  2  the command line was wrong
  3  the system gave no memory

Examples:
  ahci log --tag 3 --error 40 --lba 7
  ahci log --tag 3 --error 40 --lba 7 --raw | od -Ax -tx1",
};

pub(crate) const TAG_HELP: &str = "The tag of the command that failed: 0 to 31";

pub(crate) const ERROR_HELP: &str =
    "The error byte, two hexadecimal digits, as 40 (UNC) or 10 (IDNF)";

pub(crate) const LBA_HELP: &str = "The LBA of the failing sector: 0 to 281474976710655";

pub(crate) const TWO_FORMS: &str =
    "of '--json', '--journal' and '--image' one at most can be given";

pub(crate) const NOT_A_BYTE: &str =
    "invalid value for '--error <EE>': it is two hexadecimal digits";
