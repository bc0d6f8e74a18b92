/// The maximum number of tokens of a server. Their numbers are below it.
pub const MAX_TOKENS: usize = 10_000;
