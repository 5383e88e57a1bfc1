// The declared names of a script: finding one by its hash, declaring one, making the index afresh, and whether all are different. The names and their index are
// columns that the caller lends; read together they are one value.
#![tactic(auto)]

ghost use Rattle.std.specs.Prelude.{◌≡◌, ◌+◌, ◌<◌, ◌≤◌, length, MatchOption};
ghost use Rattle.meaning.specs.Bounds.{STEPS, NAME_BYTES};
ghost use Rattle.lent.specs.Decides.{Decides};
ghost use Rattle.names.specs.Names.{name_at, hash, Shelved, IndexRoom, Indexed, LinkOf, Unknown, Stands, AllDifferent, Declared, BUCKETS as BUCKETS_SPEC};

// How many chains the index has.
pub const BUCKETS: usize = 256;

const FOLD: u32 = BUCKETS as u32;

// How many bytes all names have: NAME_BYTES for each of STEPS.
pub const SHELF: usize = meaning::STEPS * meaning::NAME_BYTES;

// The hash of a name.
fn hash_of(word: &[u8]) -> u16
    ensures { (result ≡ hash word.now) × (result < BUCKETS_SPEC) }
{
    let mut h = 0u32;
    for b in word {
        h = (31 * h + *b as u32) % FOLD;
    }
    h as u16
}

// The name under number k, of names with these bytes and lengths.
fn name_of<'a>(letters: &'a [u8], lens: &[u8], k: usize) -> &'a [u8]
    requires { Shelved (k + 1) letters.now lens.now }
    ensures { result.now ≡ name_at letters.now lens.now k }
{
    let from = meaning::NAME_BYTES * k;
    let to = from + lens[k] as usize;
    &letters[from..to]
}

// The first names of the tables, and the index by which one is found.
#[derive(Clone, Copy)]
pub struct Names<'a> {
    pub letters: &'a [u8],
    pub lens: &'a [u8],
    pub hashes: &'a [u16],
    pub heads: &'a [u16],
    pub nexts: &'a [u16],
    pub count: usize,
    pub ghost shelved: { Shelved count letters.now lens.now },
    pub ghost indexed: { Indexed count letters.now lens.now hashes.now heads.now nexts.now },
}

impl<'a> Names<'a> {
    // The name under number k.
    fn name(&self, k: usize) -> &'a [u8]
        requires { k < self.now.count }
        ensures { result.now ≡ name_at self.now.letters.now self.now.lens.now k }
    {
        name_of(self.letters, self.lens, k)
    }

    // Follows the chain from the link on, over names with the hash of the word, and gives back the number of the first name met that is the word.
    fn follow(&self, link: usize, word: &[u8]) -> Option<usize>
        requires { LinkOf self.now.count self.now.letters.now self.now.lens.now word.now link }
        ensures { MatchOption result (Unknown link self.now.letters.now self.now.lens.now word.now) (λ k. Stands link self.now.letters.now self.now.lens.now word.now k) }
    {
        let mut l = link;
        while 0 < l {
            let k = l - 1;
            if self.name(k) == word {
                return Some(k);
            }
            l = lent::number_at(self.nexts, k);
        }
        None
    }

    // The number of the name that is the word.
    pub fn find(&self, word: &[u8]) -> Option<usize>
        ensures { MatchOption result (Unknown self.now.count self.now.letters.now self.now.lens.now word.now) (λ k. Stands self.now.count self.now.letters.now self.now.lens.now word.now k) }
    {
        let h = hash_of(word) as usize;
        let link = lent::number_at(self.heads, h);
        self.follow(link, word)
    }

    // Whether the names are all different.
    pub fn different(&self) -> bool
        ensures { Decides result (AllDifferent self.now.count self.now.letters.now self.now.lens.now) }
    {
        for k in 0..self.count {
            let link = lent::number_at(self.nexts, k);
            if self.follow(link, self.name(k)).is_some() {
                return false;
            }
        }
        true
    }
}

// Writes the word as the name under number n, and puts it into the index.
// The columns stay parameters: what is promised of them is said column by column (`Declared`), and a struct of them would only be taken apart here.
pub fn declare(
    letters: &mut [u8],
    lens: &mut [u8],
    hashes: &mut [u16],
    heads: &mut [u16],
    nexts: &mut [u16],
    n: usize,
    word: &[u8],
)
    requires n_bound { n < STEPS }
    requires shelved { Shelved n letters.old lens.old }
    requires index_room { IndexRoom hashes.old heads.old nexts.old }
    requires short { length word.now ≤ NAME_BYTES }
    ensures { Declared n word.now letters.old lens.old hashes.old heads.old nexts.old
        letters.new lens.new hashes.new heads.new nexts.new }
{
    write::word(letters, meaning::NAME_BYTES * n, word);
    lens[n] = word.len() as u8;
    hashes[n] = hash_of(word);
    chains::push(hashes, heads, nexts, n);
}

// Makes the index of the first n names, whatever it held.
pub fn index(
    letters: &[u8],
    lens: &[u8],
    hashes: &mut [u16],
    heads: &mut [u16],
    nexts: &mut [u16],
    n: usize,
)
    requires shelved { Shelved n letters.now lens.now }
    requires index_room { IndexRoom hashes.old heads.old nexts.old }
    ensures { Indexed n letters.now lens.now hashes.new heads.new nexts.new }
{
    for k in 0..n {
        hashes[k] = hash_of(name_of(letters, lens, k));
    }
    chains::build(BUCKETS, n, hashes, heads, nexts);
}
