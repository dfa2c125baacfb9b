//! What holds of making the boot menu.
ghost use Rattle.boot_entries.specs.DefaultLaws.{DefaultEndLaw, DefaultMomentLaw, DefaultNamesLaw, DefaultPartLaw, DefaultPlanLaw, DefaultStaysLaw, GensAfterLaw, MenuBeginsLaw, MenuEndLaw, MenuLaw, MenuSinceLaw, MenuStaysLaw};
ghost use Rattle.boot_entries.specs.Laws.{BootEndLaw, BootMomentLaw, BootOnlyLaw, BootPartLaw, BootPlanLaw};

/// At each moment of making the boot menu that is planned for some generations nothing has changed
/// but its places and the stage, and the last leaves each of its places at its end.
///
/// Source: Boot Loader Specification, "Type #1 Boot Loader Specification Entries"; loader.conf(5).
pub fn boot_entries_come_to_their_end()
    ensures moments { BootOnlyLaw }
    ensures end { BootEndLaw }
{}

/// Making the boot menu of generations is a part of a switch: what its moments keep is kept
/// whatever else changes, and is enough to make it again. Each moment of making the menu that is
/// planned is one of the part.
///
/// Source: Boot Loader Specification, "Type #1 Boot Loader Specification Entries"; loader.conf(5).
pub fn boot_entries_are_a_part()
    ensures part { BootPartLaw }
    ensures moments { BootMomentLaw }
{}

/// A plan of the boot menu stays one where nothing has changed that the part looks at.
pub fn boot_plans_stay()
    ensures { BootPlanLaw }
{}

/// Making a system the boot default is a part of a switch, which comes to its end with its last moment.
/// Wherever it is cut, it leaves the same generations, and the profile names what it named or the
/// system. A plan of it stays one where nothing has changed that it looks at.
///
/// Source: NixOS manual, "Changing the configuration".
pub fn making_a_boot_default_is_a_part()
    ensures gens { GensAfterLaw }
    ensures part { DefaultPartLaw }
    ensures moments { DefaultMomentLaw }
    ensures end { DefaultEndLaw }
    ensures stays { DefaultStaysLaw }
    ensures planned { DefaultPlanLaw }
    ensures names { DefaultNamesLaw }
{}

/// What a firmware finds: at each moment an entry that stands stood at the beginning or is that of a
/// generation that stands, no entry of a generation that stands is missing that stood before, and what
/// the boot loader reads first is as it was or names the current generation, whose entry stands. At the
/// end each entry is that of a generation that stands.
///
/// Source: Boot Loader Specification, "Type #1 Boot Loader Specification Entries"; loader.conf(5).
pub fn boot_menus_stand()
    ensures moments { MenuLaw }
    ensures end { MenuEndLaw }
    ensures begins { MenuBeginsLaw }
    ensures stays { MenuStaysLaw }
    ensures since { MenuSinceLaw }
{}
