/// What the words of the command line ask for. At most `cache` pages are to be cached.
#[derive(Clone, Copy, Debug, PartialEq, Eq)]
pub enum Words {
    /// To serve requests.
    Serve { cache: u32 },
    /// To check each posted page.
    Check { cache: u32 },
    /// To serve the requests that are generated from a number.
    Gen { number: u64, cache: u32 },
}
