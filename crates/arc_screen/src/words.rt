// The words that the program is called with.
use screen_page::Size;

/// The desk's address, the file of sites, and the size of the terminal until it tells its own.
#[derive(Drop)]
pub struct Words<'a> {
    pub host: &'a str,
    pub port: u16,
    pub sites: &'a str,
    pub size: Size,
}

const SIZE: Size = Size {
    rows: 24,
    columns: 80,
};

// The words of these. None where they are of no form.
pub fn words_of(given: &Vec<String>) -> Option<Words<'_>> {
    let word = |place: usize| given.get(place).map(|word| word.as_str());
    let (host, port) = match given.len() {
        0 => ("127.0.0.1", 9010),
        2 | 3 | 5 => (word(0)?, word(1)?.parse::<u16>().ok()?),
        _ => return None,
    };
    let size = match (word(3), word(4)) {
        (Some(columns), Some(rows)) => Size {
            rows: rows.parse::<u16>().ok()?,
            columns: columns.parse::<u16>().ok()?,
        },
        _ => SIZE,
    };
    Some(Words {
        host,
        port,
        sites: word(2).unwrap_or("sites.txt"),
        size,
    })
}
