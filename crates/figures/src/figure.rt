// The worked figures of source document 004, sections 6.1 to 6.3, whose inputs it publishes. Amounts are in kurus, for every currency; rates,
// prices and coupons in millionths.
ghost use Rattle.std.specs.Prelude.{◌<◌};

// A payment: an amount, the rate that it is discounted at, and its day.
#[derive(Clone, Copy)]
pub struct Payment(pub u64, pub u64, pub u64);

// What a figure is, and its inputs.
#[derive(Clone, Copy)]
pub enum Work {
    // The settlement price of a nominal of 100: clean price, accrued.
    Price(u64, u64),
    // Settlement cash: nominal, clean price, accrued.
    Cash(u64, u64, u64),
    // An indexed payment: nominal, coupon (the whole for the principal), index at settlement, index at issue.
    Indexed(u64, u64, u64, u64),
    // A present value: amount, rate, days.
    Present(u64, u64, u64),
    // A variation margin: what is received, and what is paid.
    Variation(Payment, Payment),
    // Of a repo: cash, rate, term.
    Interest(u64, u64, u64),
    Withholding(u64, u64, u64),
    SecondLeg(u64, u64, u64),
}

// The line of 004 that a figure stands in, its work, and the figure: a price in kurus, all others in lira.
#[derive(Clone, Copy)]
pub struct Figure(pub u64, pub Work, pub u64);

pub const COUNT: usize = 47;

// 004 writes amounts in whole lira and discounts them unrounded. Where the whole lira give another figure, the kurus of its own formula stand
// here: 94 and 3% of 90 in 182 days (477), 10,000,000 / (1 + 0.146 * 99 / 365) (737), the second leg of 870 (885), and a tenth of it (985).
//
// The figures stand in groups, since what a function that reads an array is checked for grows with the square of its length.
const BONDS: [Figure; 10] = [
    // Discounted bond. In one year simple and compound interest agree.
    Figure(434, Work::Present(1_000_000_000, 120_000, 365), 8_928_571),
    Figure(444, Work::Present(892_857_100, 120_000, 0), 8_928_571),
    // Fixed coupons.
    Figure(462, Work::Price(940_000, 14_800), 95_48),
    Figure(477, Work::Present(954_835_165, 132_500, 1), 9_545_097),
    // Indexed coupons: 101 and 1.20, times 1.39424.
    Figure(504, Work::Price(1_408_182, 16_731), 142_49),
    Figure(518, Work::Present(1_424_940_200, 132_500, 1), 14_244_545),
    // Lease certificate.
    Figure(550, Work::Price(1_000_000, 23_000), 102_30),
    Figure(565, Work::Present(1_022_971_400, 132_000, 2), 10_222_767),
    // Lease certificate issued abroad, in dollars.
    Figure(587, Work::Price(1_030_000, 4_000), 103_40),
    Figure(599, Work::Present(1_034_006_200, 15_000, 1), 10_339_640),
];

const STRIPPED: [Figure; 7] = [
    // Stripped coupon.
    Figure(619, Work::Cash(1_000_000_000, 39_300, 0), 393_000),
    Figure(634, Work::Present(39_300_000, 132_500, 1), 392_866),
    // Stripped principal.
    Figure(661, Work::Present(788_754_300, 132_000, 2), 7_882_186),
    Figure(661, Work::Present(1_000_000_000, 115_000, 800), 7_877_417),
    Figure(
        661,
        Work::Variation(
            Payment(788_754_300, 132_000, 2),
            Payment(1_000_000_000, 115_000, 800),
        ),
        4_769,
    ),
    // Eurobond, in euros.
    Figure(673, Work::Price(1_025_000, 8_500), 103_35),
    Figure(687, Work::Present(1_033_458_900, 12_000, 1), 10_334_251),
];

const PRIVATE: [Figure; 11] = [
    // Discounted commercial paper.
    Figure(737, Work::Present(961_908_426, 132_500, 1), 9_615_806),
    Figure(737, Work::Present(1_000_000_000, 153_600, 100), 9_616_091),
    Figure(
        737,
        Work::Variation(
            Payment(1_000_000_000, 153_600, 100),
            Payment(961_908_426, 132_500, 1),
        ),
        285,
    ),
    // Private sector coupons.
    Figure(749, Work::Price(995_000, 14_500), 100_95),
    Figure(763, Work::Cash(1_000_000_000, 995_000, 14_500), 10_095_000),
    Figure(763, Work::Present(1_009_500_000, 132_500, 1), 10_091_559),
    // Private sector indexed coupons: a coupon, and the principal.
    Figure(777, Work::Indexed(1_000_000_000, 20_000, 13, 10), 260_000),
    Figure(
        777,
        Work::Indexed(1_000_000_000, 1_000_000, 13, 10),
        13_000_000,
    ),
    Figure(789, Work::Present(1_347_142_900, 132_500, 2), 13_462_247),
    // Private lease certificate.
    Figure(801, Work::Price(950_000, 3_800), 95_38),
    Figure(815, Work::Present(953_846_200, 131_500, 3), 9_528_781),
];

const POOL: [Figure; 10] = [
    // Pool repo.
    Figure(870, Work::Interest(1_000_000_000, 132_500, 1), 3_630),
    Figure(870, Work::Withholding(1_000_000_000, 132_500, 1), 545),
    Figure(870, Work::SecondLeg(1_000_000_000, 132_500, 1), 10_003_086),
    Figure(879, Work::Present(1_000_000_000, 132_000, 0), 10_000_000),
    Figure(885, Work::Present(1_000_308_562, 132_000, 1), 9_999_688),
    Figure(
        885,
        Work::Variation(
            Payment(1_000_000_000, 132_000, 0),
            Payment(1_000_308_562, 132_000, 1),
        ),
        312,
    ),
    Figure(914, Work::Cash(500_000_000, 960_000, 0), 4_800_000),
    Figure(915, Work::Cash(300_000_000, 930_000, 0), 2_790_000),
    Figure(916, Work::Cash(268_200_000, 900_000, 0), 2_413_800),
    Figure(985, Work::Present(100_030_856, 132_000, 1), 999_969),
];

const SPECIFIED: [Figure; 9] = [
    // Specified repo.
    Figure(1047, Work::Interest(1_000_000_000, 132_000, 1), 3_616),
    Figure(1047, Work::Withholding(1_000_000_000, 132_000, 1), 542),
    Figure(1047, Work::SecondLeg(1_000_000_000, 132_000, 1), 10_003_074),
    Figure(1063, Work::Present(1_000_307_400, 131_500, 2), 9_996_305),
    Figure(1063, Work::Present(1_000_000_000, 132_000, 1), 9_996_604),
    Figure(
        1063,
        Work::Variation(
            Payment(1_000_000_000, 132_000, 1),
            Payment(1_000_307_400, 131_500, 2),
        ),
        299,
    ),
    Figure(1125, Work::Present(1_000_307_400, 132_000, 1), 9_999_677),
    Figure(1125, Work::Present(1_092_900_000, 125_700, 274), 9_999_498),
    Figure(
        1125,
        Work::Variation(
            Payment(1_000_307_400, 132_000, 1),
            Payment(1_092_900_000, 125_700, 274),
        ),
        178,
    ),
];

// The figure at a place.
pub fn figure_at(i: usize) -> Figure
    requires { i < 47 }
{
    if i < 10 {
        return BONDS[i];
    }
    if i < 17 {
        return STRIPPED[i - 10];
    }
    if i < 28 {
        return PRIVATE[i - 17];
    }
    if i < 38 {
        return POOL[i - 28];
    }
    SPECIFIED[i - 38]
}
