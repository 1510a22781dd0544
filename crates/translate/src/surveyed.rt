// A table that is laid out and surveyed.
ghost use Rattle.translate.specs.Cells.{CodesRoom};

// The target and the marks of each cell, the component of each state and the pairs that count there: slices side by side, as `survey` fills the
// arrays that it is lent.
#[derive(Clone, Copy)]
pub(crate) struct Surveyed<'a> {
    pub states: usize,
    pub letters: usize,
    pub targets: &'a [u16],
    pub marks: &'a [u16],
    pub homes: &'a [u16],
    pub counted: &'a [u8],
    pub ghost room: { CodesRoom states letters targets.now marks.now homes.now counted.now },
}
