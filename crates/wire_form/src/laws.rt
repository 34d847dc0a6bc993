// Laws of the spellings, for callers: each holds of all values, so the calls have nothing to do.
ghost use Rattle.std.specs.Prelude.{◌≡◌, ℕ, ◌+◌, ◌*◌, ◌^◌, ◌<◌, ◌≤◌, ◌++◌, List, Option, length, take, drop, slice_index};
ghost use Rattle.std.specs.List.{AllByRecursion};
ghost use Rattle.serial_model.specs.Decls.{AreDecls};
ghost use Rattle.serial_model.specs.declared.decl.Decl.{Decl};
ghost use Rattle.serial_model.specs.declared.number.Commit.{Commit};
ghost use Rattle.serial_model.specs.declared.number.Number.{Number};
ghost use Rattle.wire_form.specs.Bytes.{bytes_of_word, bytes_of};
ghost use Rattle.wire_form.specs.Device.{HasWords};
ghost use Rattle.wire_form.specs.LogFile.{AreLinesOf, AreLogLines, IsDamagedAt};
ghost use Rattle.wire_form.specs.LogLine.{IsLoggable, IsLogLine, line_bytes};
ghost use Rattle.wire_form.specs.Pages.{IsPointer, IsArrayLeaf, array_leaf_words, IsArrayInner, array_inner_words, IsTreeLeaf, tree_leaf_words, Children, IsTreeInner, tree_inner_words, Contents, IsCatalogue, decls_of, catalogue_words};
ghost use Rattle.wire_form.specs.declared.records.ArrayRecord.{ArrayRecord};
ghost use Rattle.wire_form.specs.declared.records.TreeRecord.{TreeRecord};
ghost use Rattle.wire_form.specs.Ranges.{child_ranges, ranges_with};

/// No log line begins another, so a line that was written is read again, whatever follows it.
pub fn one_log_line()
    ensures { (a b : Commit) (x y : List ℕ) → IsLogLine a → IsLogLine b
        → line_bytes a ++ x ≡ line_bytes b ++ y → (a ≡ b) × (x ≡ y) }
{}

/// A log line has 16 bytes and 24 for each change: at least 40 and at most 400.
pub fn line_length()
    ensures exact { (c : Commit) → length (line_bytes c) ≡ 16 + 24 * length c.changes }
    ensures least { (c : Commit) → IsLoggable c → 40 ≤ length (line_bytes c) }
    ensures most { (c : Commit) → IsLoggable c → length (line_bytes c) ≤ 400 }
{}

/// Bytes of a log file are the lines of one list of commits at most, or damaged at one byte at most,
/// and never both.
pub fn one_list_of_lines()
    ensures one { (last : Option Number) (bytes : List ℕ) (a b : List Commit)
        → AreLogLines last bytes a → AreLogLines last bytes b → a ≡ b }
    ensures once { (decls : List Decl) (last : Option Number) (bytes : List ℕ) (at other : ℕ)
        → IsDamagedAt decls last bytes at → IsDamagedAt decls last bytes other → at ≡ other }
    ensures apart { (decls : List Decl) (last : Option Number) (bytes : List ℕ) (at : ℕ)
        (commits : List Commit) → IsDamagedAt decls last bytes at
        → AreLinesOf decls last bytes commits → ⊥ }
{}

/// A device has one list of words at most as each page, 64 of them, and more bytes behind its pages
/// leave them as they are.
pub fn one_list_of_words()
    ensures one { (device : List ℕ) (number : ℕ) (a b : List ℕ) → HasWords device number a
        → HasWords device number b → a ≡ b }
    ensures whole { (device : List ℕ) (number : ℕ) (words : List ℕ)
        → HasWords device number words → length words ≡ 64 }
    ensures some { (device : List ℕ) (number : ℕ) → 1 ≤ number → 512 * number ≤ length device
        → ((i : ℕ) → slice_index device i < 256) → (words : List ℕ) × HasWords device number words }
    ensures stays { (device more : List ℕ) (number : ℕ) (words : List ℕ)
        → HasWords device number words → HasWords (device ++ more) number words }
{}

/// The bytes of a page are those of 64 words, and of no others.
pub fn bytes_and_words()
    ensures some { (bytes : List ℕ) → length bytes ≡ 512 → ((i : ℕ) → slice_index bytes i < 256)
        → (words : List ℕ) × (length words ≡ 64) × AllByRecursion (λ w. w < 2 ^ 64) words
        × (bytes ≡ bytes_of words) }
    ensures only { (xs ys : List ℕ) → AllByRecursion (λ w. w < 2 ^ 64) xs
        → AllByRecursion (λ w. w < 2 ^ 64) ys → bytes_of xs ≡ bytes_of ys → xs ≡ ys }
{}

/// The word at an index stands in the eight bytes from eight times the index on.
pub fn word_in_bytes()
    ensures { (words : List ℕ) (i : ℕ) → i < length words
        → take 8 (drop (8 * i) (bytes_of words)) ≡ bytes_of_word (slice_index words i) }
{}

/// What a page has in it is told by its words: no two contents of one kind have the same.
pub fn one_content()
    ensures array_leaf { (used : ℕ) (a b : List ArrayRecord) → IsArrayLeaf used a
        → IsArrayLeaf used b → array_leaf_words a ≡ array_leaf_words b → a ≡ b }
    ensures array_inner { (used number : ℕ) (a b : List ℕ) → IsArrayInner used number a
        → IsArrayInner used number b → array_inner_words a ≡ array_inner_words b → a ≡ b }
    ensures tree_leaf { (low high : ℕ) (a b : List TreeRecord) → IsTreeLeaf low high a
        → IsTreeLeaf low high b → tree_leaf_words low high a ≡ tree_leaf_words low high b
        → a ≡ b }
    ensures tree_inner { (low high number : ℕ) (a b : Children) → IsTreeInner low high number a
        → IsTreeInner low high number b
        → tree_inner_words low high a ≡ tree_inner_words low high b → a ≡ b }
    ensures catalogue { (number : ℕ) (a b : Contents) → IsCatalogue number a
        → IsCatalogue number b → catalogue_words a ≡ catalogue_words b → a ≡ b }
{}

/// A catalogue declares the storages of a database: at most 16, with distinct ids.
pub fn catalogue_declares()
    ensures { (number : ℕ) (contents : Contents) → IsCatalogue number contents
        → AreDecls (decls_of contents) }
{}

/// A pointer on a device names a page below its own, or none.
pub fn pointers_go_down()
    ensures array { (used number : ℕ) (pointers : List ℕ) → IsArrayInner used number pointers
        → AllByRecursion (IsPointer number) pointers }
    ensures tree { (low high number : ℕ) (children : Children)
        → IsTreeInner low high number children
        → AllByRecursion (IsPointer number) children.pointers }
    ensures roots { (number : ℕ) (contents : Contents) → IsCatalogue number contents
        → AllByRecursion (λ s. IsPointer number s.root) contents.storages }
    ensures previous { (number : ℕ) (contents : Contents) → IsCatalogue number contents
        → IsPointer number contents.previous }
{}

/// The separators split the range between the fences into one range for each child, without gap or
/// overlap: each key between the fences is in exactly one of them, and every other key in none.
pub fn ranges_split()
    ensures each { (low high number : ℕ) (c : Children) → IsTreeInner low high number c
        → length (child_ranges low high c.separators) ≡ length c.pointers }
    ensures one { (low high number key : ℕ) (c : Children) → IsTreeInner low high number c
        → low ≤ key → key ≤ high → ranges_with key (child_ranges low high c.separators) ≡ 1 }
    ensures below { (low high number key : ℕ) (c : Children) → IsTreeInner low high number c
        → key < low → ranges_with key (child_ranges low high c.separators) ≡ 0 }
    ensures above { (low high number key : ℕ) (c : Children) → IsTreeInner low high number c
        → high < key → ranges_with key (child_ranges low high c.separators) ≡ 0 }
{}
