//! The numbers of a call.

/// The numbers behind the command; 0 where there is none.
#[derive(Clone, Copy)]
pub struct Numbers {
    pub first: u64,
    pub second: u64,
    pub third: u128,
}

fn number(word: Option<&str>) -> u64 {
    match word {
        Some(word) => word.parse().unwrap_or(0),
        None => 0,
    }
}

fn large_number(word: Option<&str>) -> u128 {
    match word {
        Some(word) => word.parse().unwrap_or(0),
        None => 0,
    }
}

/// The numbers that three words stand for.
pub fn numbers_of(first: Option<&str>, second: Option<&str>, third: Option<&str>) -> Numbers {
    Numbers {
        first: number(first),
        second: number(second),
        third: large_number(third),
    }
}
