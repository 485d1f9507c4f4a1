// What a refusal of a system means, by its number: a bound that lets each system print its own would ask more of those who call `serve`.
pub(crate) fn reason(number: u8) -> &'static str {
    match number {
        11 => "no class is known here",
        12 => "two heads differ",
        13 => "a value would be a part of itself",
        14 => "the value is not in the class",
        15 => "no value is in all of the classes",
        16 => "no room is left",
        17 => "over 128 open codes would have a class",
        23 => "as many marks are open as can be",
        _ => "a code, head, sort, label or class that is not known or does not fit",
    }
}
