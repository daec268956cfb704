/// What the words of a call ask for.
#[derive(Debug, Drop)]
pub enum Settings {
    /// A file is judged, with the rows of a configuration where one is named.
    File {
        file: String,
        config: Option<String>,
    },
    /// The generated file of this number is judged, from 1 to 2,000.
    Trial(u32),
}
