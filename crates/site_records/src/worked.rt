//! Worked dates that are theorems: each clause below is computed from the definition.
ghost use Rattle.std.specs.Prelude.{◌≡◌, codes, true, false};
ghost use Rattle.site_records.specs.Dates.{is_post_date};

/// States which texts are dates of posts. The call itself does nothing: it carries these facts.
#[tactic(auto, unfolding(crate::specs::Dates::is_post_date))]
pub fn worked_dates()
    // The first and the last one.
    ensures first { is_post_date (codes "0001-01-01 00:00:00") ≡ true }
    ensures last { is_post_date (codes "9999-12-31 23:59:59") ≡ true }

    // Every fourth year has a leap day, but of the centuries only every fourth.
    ensures leap_day { is_post_date (codes "2024-02-29 10:00:00") ≡ true }
    ensures leap_century { is_post_date (codes "2000-02-29 10:00:00") ≡ true }
    ensures no_leap_day { is_post_date (codes "2023-02-29 10:00:00") ≡ false }
    ensures no_leap_century { is_post_date (codes "1900-02-29 10:00:00") ≡ false }
    ensures no_thirtieth { is_post_date (codes "2024-02-30 10:00:00") ≡ false }

    ensures no_year_0 { is_post_date (codes "0000-12-31 23:59:59") ≡ false }
    ensures no_month_13 { is_post_date (codes "2024-13-01 10:00:00") ≡ false }
    ensures no_day_0 { is_post_date (codes "2024-01-00 10:00:00") ≡ false }
    ensures no_hour_24 { is_post_date (codes "2024-01-01 24:00:00") ≡ false }
    ensures no_minute_60 { is_post_date (codes "2024-01-01 10:60:00") ≡ false }
    ensures no_leap_second { is_post_date (codes "2016-12-31 23:59:60") ≡ false }

    // The form: 19 bytes, digits, and the marks between them.
    ensures too_short { is_post_date (codes "2024-01-01 10:00:0") ≡ false }
    ensures too_long { is_post_date (codes "2024-01-01 10:00:000") ≡ false }
    ensures no_letter { is_post_date (codes "2024-01-01T10:00:00") ≡ false }
    ensures no_sign { is_post_date (codes "-024-01-01 10:00:00") ≡ false }
{}
