/// How many bytes a file has at most.
pub const FILE_LIMIT: usize = 1048576;
