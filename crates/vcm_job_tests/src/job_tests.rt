//! Jobs: the mark between a part and a program, and inputs at the limit.

use std::alloc::Global;
use std::io;
use std::io::Read;
use vcm_job::{JobFault, job};
use vcm_lines::{FaultCode, SourceFault};
use vcm_part::{PartCode, PartFault};
use vcm_run::Refusal;
use vcm_test_tools::{BOUNDS, joined};

// An empty program.
const EMPTY: &str = "DMISMN/'T'\nUNITS/MM,ANGDEC\nENDFIL\n";

// What a job of these bytes answers but for what it writes.
fn fault_of(alloc: Global, bytes: &[u8]) -> Option<JobFault> {
    let mut input = bytes;
    let mut out = Vec::new(alloc);
    job(alloc, &mut input, &mut out).err()
}

// Whether the job of a program behind this mark is refused so, or not at all.
fn is_refused(alloc: Global, mark: &str, program: &str, refusal: Option<JobFault>) -> bool {
    match joined(alloc, &[BOUNDS, mark, program]) {
        Some(text) => fault_of(alloc, text.as_bytes()) == refusal,
        None => false,
    }
}

// Whether a mark ends with its line, also at the end of the input, and begins with it.
fn are_marks(alloc: Global) -> bool {
    let order = JobFault::Refused(Refusal::Source(SourceFault {
        code: FaultCode::BadOrder,
        line: 1,
    }));
    let toml = JobFault::Refused(Refusal::Part(PartFault {
        code: PartCode::NotToml,
        block: 0,
    }));
    is_refused(alloc, "%%\n", EMPTY, None)
        && is_refused(alloc, "%%\r\n", EMPTY, None)
        && is_refused(alloc, "%%", "", Some(order))
        && is_refused(alloc, " %%\n", EMPTY, Some(toml))
}

#[test]
fn marks_of_jobs(rt: HostRuntime) {
    assert!(rt; are_marks(rt.alloc()));
}

// Gives so many per cent signs, and counts its calls.
#[derive(Drop)]
struct Long {
    left: usize,
    calls: usize,
}

impl Read for Long {
    fn read(&mut self, buf: &mut [u8]) -> io::Result<usize> {
        self.calls = self.calls.saturating_add(1);
        let n = buf.len().min(self.left);
        buf[..n].fill(b'%');
        self.left -= n;
        Ok(n)
    }
}

// What the job of an input of so many bytes answers, and whether the reader was called no more than once for 4,096 bytes and once at the end.
fn long_job(alloc: Global, bytes: usize) -> (Option<JobFault>, bool) {
    let mut reader = Long {
        left: bytes,
        calls: 0,
    };
    let mut out = Vec::new(alloc);
    let fault = job(alloc, &mut reader, &mut out).err();
    (fault, reader.calls <= 8_193 && out.is_empty())
}

// Whether an input at the limit is judged, and a longer one isn't.
fn are_limited(alloc: Global) -> bool {
    let code = PartCode::NotToml;
    let refused = JobFault::Refused(Refusal::Part(PartFault { code, block: 0 }));
    long_job(alloc, 33_554_433) == (Some(JobFault::TooLong), true)
        && long_job(alloc, 33_554_432) == (Some(refused), true)
}

#[test]
fn inputs_at_the_limit(rt: HostRuntime) {
    assert!(rt; are_limited(rt.alloc()));
}
