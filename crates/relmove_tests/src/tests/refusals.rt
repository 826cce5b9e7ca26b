//! Each call that takes an allocator, between two marks. tools/refusals runs each of these tests again and again, and
//! makes one request between its marks fail after another. So a test accepts a failed allocation as well as the result;
//! without that script it accepts only the result.
mod arguments;
mod journal;
mod marks;
mod moving;
mod report;
mod staging_names;
