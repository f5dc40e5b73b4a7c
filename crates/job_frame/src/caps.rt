//! How many bytes of a file are read.

/// One byte more than the longest file that is read, but for certificates.
pub const MOST_BYTES: usize = instance_reader::MOST_BYTES + 1;

/// One byte more than the longest certificate that is read.
pub const MOST_CERTIFICATE_BYTES: usize = (1 << 28) + 1;
