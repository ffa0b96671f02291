//! [`ChoicePoint`]: a choice that is noted.

/// Which of those among whom was chosen goes, from 0 on, and how many they are.
#[derive(Clone, Copy, Debug, PartialEq, Eq, Drop)]
pub struct ChoicePoint {
    pub choice: u32,
    pub count: u32,
}
