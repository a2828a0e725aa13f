// The pages as they should be: each is one of a few versions, and version 0 is blank.
pub const PAGES: usize = 200;

#[derive(Clone, Copy)]
pub struct Model {
    base: [u64; PAGES],
    now: [u64; PAGES],
}

// The byte i of a page.
fn byte(n: usize, version: u64, i: usize) -> u8 {
    if version == 0 {
        return 0;
    }
    let x = (n as u64)
        .wrapping_mul(31)
        .wrapping_add(version.wrapping_mul(97))
        .wrapping_add(i as u64);
    (x % 251) as u8
}

// A page in a version.
pub fn page(n: usize, version: u64) -> [u8; 4096] {
    let mut bytes = [0; 4096];
    for (i, b) in bytes.iter_mut().enumerate() {
        *b = byte(n, version, i);
    }
    bytes
}

impl Model {
    pub fn blank() -> Model {
        Model {
            base: [0; PAGES],
            now: [0; PAGES],
        }
    }

    fn version(&self, n: usize) -> u64 {
        self.now.get(n).copied().unwrap_or(0)
    }

    // Whether bytes are a page as it is now.
    pub fn shows(&self, n: usize, bytes: &[u8]) -> bool {
        let version = self.version(n);
        bytes.len() == 4096
            && bytes
                .iter()
                .enumerate()
                .all(|(i, b)| *b == byte(n, version, i))
    }

    pub fn put(&mut self, n: usize, version: u64) {
        if let Some(now) = self.now.get_mut(n) {
            *now = version;
        }
    }

    pub fn commit(&mut self) {
        self.base = self.now;
    }

    pub fn undo(&mut self) {
        self.now = self.base;
    }

    // The first blank page from n on.
    pub fn vacant(&self, n: usize) -> usize {
        self.now
            .iter()
            .skip(n)
            .position(|version| *version == 0)
            .map_or(PAGES, |k| n.saturating_add(k))
    }

    // A page that is another one than as committed, if there is any.
    pub fn changed(&self) -> Option<usize> {
        self.now
            .iter()
            .zip(&self.base)
            .position(|(now, base)| now != base)
    }
}
