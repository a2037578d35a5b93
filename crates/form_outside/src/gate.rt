/// What a seat passes before it expands a bucket. It may make the seat wait.
pub trait Gate {
    fn enter(&self, bucket: u64);
}
