// Bytes in hexadecimal, and lists of numbers parted by commas.
use std::alloc::Global;
use std::error::Error;
use std::str::FromStr;

// What a digit in hexadecimal stands for, or nothing where it is none; capitals are none.
fn digit(b: u8) -> Option<u8> {
    match b {
        b'0'..=b'9' => Some(b - b'0'),
        b'a'..=b'f' => Some(b - b'a' + 10),
        _ => None,
    }
}

// The bytes of a text in hexadecimal, in small letters; `-` stands for none.
pub fn bytes_in(heap: Global, text: &str) -> anyhow::Result<Vec<u8>> {
    let mut bytes = Vec::new(heap);
    let mut high = None;
    // a `for`: to `collect` the digits first takes twice the memory, and the bytes from a closure a fifth more instructions
    for low in text.bytes().filter_map(digit) {
        high = match high {
            None => Some(low),
            Some(high) => {
                bytes.push((high & 15) * 16 + (low & 15))?;
                None
            }
        };
    }
    Ok(bytes)
}

// The numbers of a list.
pub fn numbers_in<T: FromStr + Drop>(heap: Global, text: &str) -> anyhow::Result<Vec<T>>
where
    T::Err: Error,
{
    text.split(',')
        .map(|word| -> anyhow::Result<T> { Ok(word.parse::<T>()?) })
        .try_collect(heap)
}
