// What the words in bytes are, as the contract of a function.

ghost use Rattle.lu_scan.specs.Laws.{WordsGo};

/// The words that are read in the bytes of elements are those of their carried pointers.
pub fn words()
    ensures { WordsGo }
{}
