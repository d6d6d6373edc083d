// The bytes of a job (01, 'Jobs'), read as big-endian numbers; past its end every byte is 0.
ghost use Rattle.std.specs.Prelude.{◌≡◌, ◌+◌, ◌≤◌, ◌<◌, ◌^◌, length, get_or};
ghost use Rattle.numbers.specs.Limits.{word_bytes};
ghost use Rattle.job_format.specs.Places.{header_bytes};
ghost use Rattle.job_format.specs.Bytes.{byte_values, big_at};

const BYTE_VALUES: u64 = 256;

// The byte at a place, 0 past the end.
pub fn byte_at(job: &[u8], at: usize) -> u64
    ensures { (result ≡ get_or job.now at 0) × (result < byte_values) }
{
    u64::from(job.get(at).copied().unwrap_or(0))
}

// The number that the bytes from a place on are, big-endian.
pub fn big_at<const COUNT: usize>(job: &[u8], at: usize) -> u64
    requires { (COUNT ≤ word_bytes) × (at ≤ length job.now + header_bytes) }
    ensures { (result ≡ big_at COUNT job.now at) × (result < byte_values ^ COUNT) }
{
    let mut number: u64 = 0;
    for i in 0..COUNT {
        number = number * BYTE_VALUES + byte_at(job, at + i);
    }
    number
}
