//! The arguments of the commands.

/// The device that the command line describes (own).
#[derive(Clone, Copy, Debug)]
pub struct AskedDevice<'a> {
    /// The file of its topology. By default it has the test topology.
    pub topology: Option<&'a str>,
    /// Its limits, as eight numbers. A script may set others.
    pub limits: Option<&'a str>,
}

/// The arguments of `drm_server run` (own).
#[derive(Clone, Copy, Debug)]
pub struct Running<'a> {
    /// The file of the script, or `None` for standard input.
    pub path: Option<&'a str>,
    /// The device.
    pub device: AskedDevice<'a>,
    /// The file to which the journal is written at the end.
    pub journal: Option<&'a str>,
}

/// The arguments of `drm_server check` and `drm_server update` (own).
#[derive(Debug, Drop)]
pub struct Checking<'a> {
    /// The files.
    pub files: Vec<&'a str>,
    /// The device of each file.
    pub device: AskedDevice<'a>,
}

/// The arguments of `drm_server explain` (own).
#[derive(Clone, Copy, Debug)]
pub struct Explaining<'a> {
    /// The file of the script.
    pub path: &'a str,
    /// The device.
    pub device: AskedDevice<'a>,
    /// The only client to explain, by its label or its number.
    pub client: Option<&'a str>,
    /// The only line to explain, from 1.
    pub line: Option<u64>,
    /// Whether the explanation is printed as JSON.
    pub is_json: bool,
}

/// The arguments of `drm_server shrink` (own).
#[derive(Clone, Copy, Debug)]
pub struct Shrinking<'a> {
    /// The file of the script.
    pub path: &'a str,
    /// The device.
    pub device: AskedDevice<'a>,
    /// The line whose answer stays, from 1.
    pub line: u64,
}
